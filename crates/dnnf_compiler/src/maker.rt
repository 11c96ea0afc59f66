ghost use Rattle.std.specs.Prelude.{◌≡◌, ◌+◌, ◌*◌, ◌<◌, ◌≤◌, ◌++◌, length, option_map, IfOk, IfSome};
ghost use Rattle.node_store.specs.declared.store.TheConstants.{MADE_LIMIT, VARIABLE_LIMIT};
ghost use Rattle.dnnf_compiler.specs.inner.Joining.{IsPlain};
ghost use Rattle.dnnf_compiler.specs.inner.Making.{IsMaker, IsVariable, IsJoin};
ghost use Rattle.dnnf_compiler.specs.inner.Meeting.{AreMeetable, IsMeet, IsPlaceable, taken, AreHeld, IsUsable, IsTaken, IsChosen, AreChoices};

use elimination_forests::Forks;
use node_store::Store;
use smallvec::SmallVec;
use std::alloc::{AllocError, Global};

/// The children of a node, mostly two.
pub(crate) type Children = SmallVec<u32, 2>;

/// Makes nodes. `yes` is always true, and `no` never.
#[derive(Drop)]
pub(crate) struct Maker {
    pub(crate) store: Store,
    pub(crate) yes: u32,
    pub(crate) no: u32,
}

impl Maker {
    /// Creates a maker over `vars` variables, with room for `room` nodes.
    pub(crate) fn new(alloc: Global, vars: u32, room: usize) -> Result<Maker, AllocError>
        requires { vars < VARIABLE_LIMIT }
        ensures maker { IfOk result IsMaker }
        ensures vars { IfOk result (λ maker. maker.store.vars ≡ vars) }
        ensures counts { IfOk result (λ maker. (maker.store.made ≡ 2) × (maker.store.handed ≡ 0)) }
    {
        let mut store = Store::new(alloc, vars)?;
        store.reserve(room)?;
        let yes = store.and(&[])?;
        let no = store.or(&[])?;
        Ok(Maker { store, yes, no })
    }

    /// Makes a node for each list of a place. It is true if the variable's bit leads to nodes below that are all true.
    pub(crate) fn make_place(
        &mut self,
        alloc: Global,
        var: u32,
        forks: &Forks,
        below: &[Vec<u32>],
    ) -> Result<Vec<u32>, AllocError>
        requires { IsPlaceable self.old var below.now forks.now }
        ensures { IfOk result (λ nodes. AreChoices self.old self.new var below.now forks.now nodes.items) }
    {
        let mut nodes = Vec::with_capacity(alloc, forks.zero.len())?;
        for list in 0..forks.zero.len() {
            let node = self.choose(alloc, var, forks.zero.get(list), forks.one.get(list), below)?;
            nodes.push(node)?;
        }
        Ok(nodes)
    }

    // Makes the node that is true if the variable's bit leads to nodes that are all true.
    fn choose(
        &mut self,
        alloc: Global,
        var: u32,
        zero: Option<&[u32]>,
        one: Option<&[u32]>,
        below: &[Vec<u32>],
    ) -> Result<u32, AllocError>
        requires maker { IsMaker self.old }
        requires var { IsVariable self.old var }
        requires zero { IfSome (option_map (λ numbers. numbers.now) zero) (IsUsable self.old.store.nodes var below.now) }
        requires one { IfSome (option_map (λ numbers. numbers.now) one) (IsUsable self.old.store.nodes var below.now) }
        requires few { self.old.store.made + 3 ≤ MADE_LIMIT }
        ensures { IfOk result (IsChosen self.old self.new var below.now (option_map (λ numbers. numbers.now) zero.entry) (option_map (λ numbers. numbers.now) one.entry)) }
    {
        let first = self.take(alloc, var, false, zero, below)?;
        let second = self.take(alloc, var, true, one, below)?;
        let node = self.join(first, second)?;
        Ok(node)
    }

    // Makes the node that is true if the variable has the bit, and all nodes to which the way leads are true. Returns none only if that is
    // never true.
    fn take(
        &mut self,
        alloc: Global,
        var: u32,
        bit: bool,
        way: Option<&[u32]>,
        below: &[Vec<u32>],
    ) -> Result<Option<u32>, AllocError>
        requires maker { IsMaker self.old }
        requires var { IsVariable self.old var }
        requires way { IfSome (option_map (λ numbers. numbers.now) way) (IsUsable self.old.store.nodes var below.now) }
        requires few { self.old.store.made < MADE_LIMIT }
        ensures { IfOk result (IsTaken self.old self.new var bit below.now (option_map (λ numbers. numbers.now) way.entry)) }
    {
        let Some(numbers) = way else {
            return Ok(None);
        };
        let literal = self.store.literal(var, bit);
        let kids = taken(Children::from_slice(alloc, &[literal])?, numbers, below)?;
        let node = self.meet(alloc, kids.as_slice())?;
        if node == self.no {
            return Ok(None);
        }
        Ok(Some(node))
    }

    /// Makes the node that is true if all of these are. Leaves out `yes`, and makes no node if one is `no`, or if at most one is left.
    #[tactic(auto, using(crate::proofs::Rules::kept_children))]
    pub(crate) fn meet(&mut self, alloc: Global, kids: &[u32]) -> Result<u32, AllocError>
        requires { AreMeetable self.old kids.now }
        ensures { IfOk result (IsMeet self.old self.new kids.now) }
    {
        let mut kept = Children::new(alloc);
        for i in 0..kids.len() {
            let child = kids[i];
            if child == self.no {
                return Ok(child);
            }
            if child == self.yes {
                continue;
            }
            kept.push(child)?;
        }
        match kept.as_slice() {
            [] => Ok(self.yes),
            [only] => Ok(*only),
            several => {
                let node = self.store.and(several)?;
                Ok(node)
            }
        }
    }

    // Makes the node that is true if one of two is.
    #[tactic(auto, using(crate::proofs::Bare::join_both))]
    fn join(&mut self, zero: Option<u32>, one: Option<u32>) -> Result<u32, AllocError>
        requires maker { IsMaker self.old }
        requires zero { IfSome zero (λ node. node < length self.old.store.nodes) }
        requires one { IfSome one (λ node. node < length self.old.store.nodes) }
        requires plain_zero { IfSome zero (IsPlain self.old.store.nodes) }
        requires plain_one { IfSome one (IsPlain self.old.store.nodes) }
        requires few { self.old.store.made < MADE_LIMIT }
        ensures { IfOk result (IsJoin self.old self.new zero one) }
    {
        match (zero, one) {
            (None, None) => Ok(self.no),
            (Some(node), None) => Ok(node),
            (None, Some(node)) => Ok(node),
            (Some(first), Some(second)) => {
                let node = self.store.or(&[first, second])?;
                Ok(node)
            }
        }
    }
}

/// Adds to children the nodes that have these numbers, one of each level.
pub(crate) fn taken(
    kids: Children,
    numbers: &[u32],
    levels: &[Vec<u32>],
) -> Result<Children, AllocError>
    requires { AreHeld levels.now numbers.now }
    ensures { IfOk result (λ all. all.items ≡ kids.items ++ taken levels.now numbers.now) }
{
    let mut kids = kids;
    for i in 0..numbers.len() {
        kids.push(levels[i][numbers[i] as usize])?;
    }
    Ok(kids)
}
