ghost use Rattle.std.specs.Prelude.{◌≡◌, ◌≤◌, ◌<◌, true, Some, None, Ok, if◌then◌else◌};
ghost use Rattle.text_rules.specs.Expected.{Fulfils};
ghost use Rattle.device_model.specs.TruthTable.{is_table};
ghost use Rattle.component_lang.specs.Designs.{is_plain_name};
ghost use Rattle.component_lang.specs.Kinds.{Reader, InType};
ghost use Rattle.component_lang.specs.TypeRows.{is_row, row_in, with_row, shape_of};
ghost use Rattle.component_lang.specs.DesignLines.{at, ok_line, bad_line, cost_line};
ghost use Rattle.component_lang.specs.inner.LineFaults.{fault_told};
ghost use Rattle.component_lang.specs.inner.Views.{open_type_in};

use crate::design::Shape;
use crate::fault::LangFault;
use crate::line_error::LineError;
use device_model::{COST_LIMIT, Name, TYPE_PORT_LIMIT, Table};
use std::alloc::Global;
use text_rules::plain_number;

/// A type while its lines are read. Without a `bad` line, a faulty part allows every row. Without a `cost` line, a failure
/// costs 1.
#[derive(Clone, Copy)]
pub struct OpenType<'a> {
    pub name: &'a [u8],
    pub ports: u8,
    pub ok: u64,
    pub bad: Option<u64>,
    pub cost: Option<u32>,
}

// Returns the number of the row, if the word is `ports` characters 0 and 1.
#[tactic(auto, using(crate::proofs::Rules::rows_within))]
fn row_in(ports: u8, word: &[u8]) -> Option<u64>
    requires { ports ≤ TYPE_PORT_LIMIT }
    ensures { result ≡ (if is_row ports word.now then Some (row_in word.now) else None) }
{
    if word.len() != usize::from(ports) {
        return None;
    }
    let mut row = 0;
    for (place, byte) in word.iter().enumerate() {
        match byte {
            b'0' => {}
            b'1' => row += 1 << place,
            _ => return None,
        }
    }
    Some(row)
}

// Adds a row to a set of rows.
#[tactic(auto, using(crate::proofs::Rules::row_added))]
fn with_row(rows: u64, row: u64) -> u64
    requires { row < 64 }
    ensures { result ≡ with_row rows row }
{
    rows | 1 << row
}

impl<'a> OpenType<'a> {
    /// Allows a row if the part is ok.
    #[tactic(auto, using(crate::proofs::Rules::rows_within))]
    pub fn with_ok(self, word: &[u8]) -> Result<OpenType<'a>, LineError>
        requires { self.ports ≤ TYPE_PORT_LIMIT }
        ensures { (reader : Reader) → Fulfils (λ open_type. at reader (InType (open_type_in open_type))) fault_told
            (ok_line reader (open_type_in self.entry) word.now) result }
    {
        let Some(row) = row_in(self.ports, word) else {
            return Err(LineError::Fault(LangFault::Row));
        };
        Ok(OpenType {
            ok: with_row(self.ok, row),
            ..self
        })
    }

    /// Allows a row if the part is faulty.
    #[tactic(auto, using(crate::proofs::Rules::rows_within))]
    pub fn with_bad(self, word: &[u8]) -> Result<OpenType<'a>, LineError>
        requires { self.ports ≤ TYPE_PORT_LIMIT }
        ensures { (reader : Reader) → Fulfils (λ open_type. at reader (InType (open_type_in open_type))) fault_told
            (bad_line reader (open_type_in self.entry) word.now) result }
    {
        let Some(row) = row_in(self.ports, word) else {
            return Err(LineError::Fault(LangFault::Row));
        };
        Ok(OpenType {
            bad: Some(with_row(self.bad.unwrap_or(0), row)),
            ..self
        })
    }

    /// Sets the cost of a failure.
    pub fn with_cost(self, word: &[u8]) -> Result<OpenType<'a>, LineError>
        ensures { (reader : Reader) → Fulfils (λ open_type. at reader (InType (open_type_in open_type))) fault_told
            (cost_line reader (open_type_in self.entry) word.now) result }
    {
        if self.cost.is_some() {
            return Err(LineError::Fault(LangFault::Twice));
        }
        let Some(cost) = plain_number(4, 1, u64::from(COST_LIMIT), word) else {
            return Err(LineError::Fault(LangFault::Cost));
        };
        Ok(OpenType {
            cost: Some(cost as u32),
            ..self
        })
    }

    /// Returns the type after its last line.
    pub fn close(self, alloc: Global) -> Result<Shape, LineError>
        requires named { is_plain_name self.name.now ≡ true }
        requires rows { is_table (shape_of (open_type_in self)).table ≡ true }
        ensures { Fulfils (λ shape. shape) fault_told (Ok (shape_of (open_type_in self.entry))) result }
    {
        let all_rows = Table::all_rows(self.ports).unwrap();
        let bad = self.bad.unwrap_or(all_rows);
        let table = Table::new(self.ports, self.ok, bad, self.cost.unwrap_or(1)).unwrap();
        let name = Name::new(alloc, self.name)?;
        Ok(Shape { name, table })
    }
}
