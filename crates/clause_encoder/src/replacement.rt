ghost use Rattle.std.specs.Prelude.{◌≡◌, ◌<◌, ◌≤◌, ◌++◌, ◌∷◌, [], length, map, All, OnOk, IfOk};
ghost use Rattle.state_rules.specs.Assignments.{Assignment};
ghost use Rattle.clause_encoder.specs.Clauses.{var_of, all_hold};
ghost use Rattle.clause_encoder.specs.Encoding.{tidy};
ghost use Rattle.clause_encoder.specs.Replacing.{variable_for, literal_for, replaced};

use crate::Memory;
use crate::cnf::Cnf;
use crate::limits::VARIABLE_LIMIT;
use crate::writer::Writer;
use std::alloc::Global;

/// Returns the clauses with `variables[v - 1]` in place of variable v. One variable may replace several, so each clause is
/// sorted again, and one that then has both literals of a variable is left out.
///
/// They are true under an assignment exactly if the given clauses are true when each variable has the bit of the one that
/// replaces it.
#[tactic(auto, using(crate::proofs::Rules::replaced_clauses))]
pub fn replaced(alloc: Global, cnf: &Cnf, variables: &[u32], vars: u32) -> Result<Cnf, Memory>
    requires all { length variables.now ≡ cnf.now.vars }
    requires some { All (λ v. 1 ≤ v) variables.now }
    requires within { All (λ v. v ≤ vars) variables.now }
    requires few { vars < VARIABLE_LIMIT }
    ensures list { IfOk result (λ new. new ≡ replaced variables.now vars cnf.now) }
    ensures truth { IfOk result (λ new. (a : Assignment)
        → all_hold a new.clauses ≡ all_hold (λ v. a (variable_for variables.now v)) cnf.now.clauses) }
{
    let mut writer = Writer::new(alloc);
    for at in 0..cnf.len() {
        push_replaced(&mut writer, cnf.clause(at), variables)?;
    }
    Ok(Cnf::of_flat(vars, writer.into_clauses()))
}

// Writes a clause with its variables replaced.
fn push_replaced(writer: &mut Writer, clause: &[i32], variables: &[u32]) -> Result<(), Memory>
    requires some { All (λ l. 1 ≤ var_of l) clause.now }
    requires within { All (λ l. var_of l ≤ length variables.now) clause.now }
    requires few { All (λ v. v < VARIABLE_LIMIT) variables.now }
    ensures { OnOk result (writer.new.clauses
        ≡ writer.old.clauses ++ tidy (map (literal_for variables.now) clause.now ∷ [])) }
{
    writer.begin();
    for literal in clause {
        writer.add(literal_for(*literal, variables))?;
    }
    writer.end()
}

fn literal_for(literal: i32, variables: &[u32]) -> i32
    requires some { 1 ≤ var_of literal }
    requires within { var_of literal ≤ length variables.now }
    requires few { All (λ v. v < VARIABLE_LIMIT) variables.now }
    ensures { result ≡ literal_for variables.now literal }
{
    let variable = variables[literal.unsigned_abs() as usize - 1] as i32;
    if literal > 0 { variable } else { -variable }
}
