//! Laws about the definitions of this crate: contracts of functions that do nothing.
ghost use Rattle.std.specs.Prelude.{◌≡◌, ◌+◌, ◌≤◌, true, List, map, length, if◌then◌else◌};
ghost use Rattle.std.specs.List.{range_with_len};
ghost use Rattle.state_rules.specs.Assignments.{Assignment};
ghost use Rattle.clause_encoder.specs.Clauses.{Clause, ClauseList, all_hold, is_clause_list};
ghost use Rattle.elimination_forests.specs.Branches.{order, weight, sum_of};
ghost use Rattle.elimination_forests.specs.declared.steps.Weight.TheVariants.{Words, Lists};
ghost use Rattle.elimination_forests.specs.Forests.{Forest, chain, is_forest_of, root, sum_on, forest_sum, forks_on, leads_on};
ghost use Rattle.elimination_forests.specs.Levels.{level_forks};

/// States that the order of a clause list is a forest of its clauses, one path down, with the same forks.
///
/// The sum along it is that of the levels if some bits make all clauses true, and otherwise one more: the last level, where all variables
/// are assigned, has one list or none.
pub fn chain_is_order()
    ensures forest { (cnf : ClauseList) → is_clause_list cnf ≡ true → is_forest_of (chain (order cnf.clauses)) cnf ≡ true }
    ensures sum { (cnf : ClauseList) (a : Assignment) → is_clause_list cnf ≡ true → all_hold a cnf.clauses ≡ true
        → forest_sum Words (chain (order cnf.clauses)) cnf.clauses ≡ sum_of cnf.clauses }
    ensures levels { (cnf : ClauseList) → is_clause_list cnf ≡ true
        → sum_on Words (chain (order cnf.clauses)) (root cnf.clauses) + weight cnf.clauses (length (order cnf.clauses)) ≡ sum_of cnf.clauses }
    ensures whole { (cnf : ClauseList) → is_clause_list cnf ≡ true
        → forest_sum Words (chain (order cnf.clauses)) cnf.clauses + (if leads_on (forks_on (chain (order cnf.clauses)) (root cnf.clauses)) then 1 else 0)
        ≡ 1 + sum_of cnf.clauses }
    ensures last { (cnf : ClauseList) → weight cnf.clauses (length (order cnf.clauses)) ≤ 1 }
    ensures forks { (cnf : ClauseList) → is_clause_list cnf ≡ true
        → forks_on (chain (order cnf.clauses)) (root cnf.clauses)
        ≡ map (level_forks cnf.clauses) (range_with_len 0 (length (order cnf.clauses))) }
{}

/// States that the lists along a forest are at most as many as the words that they take.
///
/// So along the order of the names they are at most its sum, if some bits make all clauses true.
pub fn lists_are_fewer()
    ensures fewer { (forest : Forest) (clauses : List Clause) → forest_sum Lists forest clauses ≤ forest_sum Words forest clauses }
    ensures chain { (cnf : ClauseList) (a : Assignment) → is_clause_list cnf ≡ true → all_hold a cnf.clauses ≡ true
        → forest_sum Lists (chain (order cnf.clauses)) cnf.clauses ≤ sum_of cnf.clauses }
{}
