ghost use Rattle.std.specs.Prelude.{◌≡◌, ◌<◌, ◌≤◌, length, true, slice_index_or, [], IfOk};
ghost use Rattle.std.specs.List.{list_all};
ghost use Rattle.clause_encoder.specs.Clauses.{is_clause, is_clause_list};

use crate::Memory;
use crate::limits::{CLAUSE_LIMIT, VARIABLE_LIMIT};
use flat_lists::FlatLists;
use std::alloc::Global;
use std::marker::Model;

/// A clause made outside the encoder: literals, at least one of them true. The literal of variable v is v, or -v if negated.
#[derive(Debug, Drop)]
pub struct Clause {
    literals: Vec<i32>,
}

impl Model for Clause {
    ghost use Rattle.std.specs.Prelude.{ℤ, List};

    ghost Value = { List ℤ };

    ghost view = { λ c. c.literals.items };
}

impl Clause {
    /// Copies the literals of a clause.
    pub fn new(alloc: Global, literals: &[i32]) -> Result<Clause, Memory>
        ensures { IfOk result (λ clause. clause ≡ literals.now) }
    {
        let literals = Vec::from_slice(alloc, literals)?;
        Ok(Clause { literals })
    }

    pub(crate) fn as_slice(&self) -> &[i32]
        ensures { result.now ≡ self.now }
    {
        self.literals.as_slice()
    }
}

/// Clauses over the variables 1 to `vars`.
#[derive(Debug, Drop)]
pub struct Cnf {
    vars: u32,
    clauses: FlatLists<i32>,
}

impl Model for Cnf {
    ghost use Rattle.std.specs.Prelude.{◌≡◌, true};
    ghost use Rattle.clause_encoder.specs.Clauses.{ClauseList, is_clause_list};

    ghost Value = { ClauseList };

    ghost view = { λ c. record { vars = c.vars; clauses = c.clauses } };

    ghost invariant = { λ c. is_clause_list (record { vars = c.vars; clauses = c.clauses }) ≡ true };
}

impl Cnf {
    /// Makes a list of clauses in this order.
    ///
    /// There are fewer than 2^29 variables and at most 262,144 clauses. Each clause has a literal, and its variables rise.
    pub fn of(alloc: Global, vars: u32, clauses: Vec<Clause>) -> Result<Cnf, Memory>
        requires vars { vars < VARIABLE_LIMIT }
        requires few { length clauses.items ≤ CLAUSE_LIMIT }
        requires each { list_all (is_clause vars) clauses.items ≡ true }
        ensures { IfOk result (λ cnf. cnf ≡ record { vars = vars; clauses = clauses.items }) }
    {
        let mut flat = FlatLists::new(alloc);
        for clause in &clauses {
            flat.push(clause.as_slice())?;
        }
        Ok(Cnf {
            vars,
            clauses: flat,
        })
    }

    pub(crate) fn of_flat(vars: u32, clauses: FlatLists<i32>) -> Cnf
        requires vars { vars < VARIABLE_LIMIT }
        requires few { length clauses ≤ CLAUSE_LIMIT }
        requires each { list_all (is_clause vars) clauses ≡ true }
        ensures { result ≡ record { vars = vars; clauses = clauses } }
    {
        Cnf { vars, clauses }
    }

    /// Returns the greatest variable, which is the number of variables.
    pub fn vars(&self) -> u32
        ensures vars { result ≡ self.now.vars }
        ensures valid { is_clause_list self.now ≡ true }
    {
        self.vars
    }

    /// Returns the number of clauses.
    pub fn len(&self) -> u32
        ensures len { result ≡ length self.now.clauses }
        ensures valid { is_clause_list self.now ≡ true }
    {
        self.clauses.len() as u32
    }

    /// Returns the literals of the clause at a place, by rising variable.
    pub fn clause(&self, at: u32) -> &[i32]
        requires { at < length self.now.clauses }
        ensures { result.now ≡ slice_index_or self.now.clauses at [] }
    {
        self.clauses.list(at as usize)
    }
}
