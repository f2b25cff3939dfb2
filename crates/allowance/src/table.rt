//! The shop's table of deductions.
ghost use Rattle.std.specs.Prelude.{◌≡◌, ◌≤ℤ◌, map, All, IfOk};
ghost use Rattle.toml_fields.specs.Results.{Gives};
ghost use Rattle.part_file.specs.Part.{part_data, half_thickness};
ghost use Rattle.allowance.specs.Bounds.{greatest_half_deduction};
ghost use Rattle.allowance.specs.AllowTable.{row_data, table_data, IsAllowRow, IsAllowTable, matches, row_half_deduction, matching_row, half_deduction_in};

use crate::deduction::half_deduction;
use brake_base::Name;
use part_file::Part;

/// How half of the deduction is found.
#[derive(Clone, Copy, Debug, PartialEq, Eq)]
pub enum Factor {
    /// By DIN 6935, from the correction factor k in thousandths.
    K(i64),
    /// As it was measured, in micrometres.
    Measured(i64),
}

/// The deduction of one material at one thickness and inner radius, in micrometres.
#[derive(Clone, Copy, Debug)]
pub struct AllowRow {
    pub material: Name,
    pub thickness: i64,
    pub radius: i64,
    pub factor: Factor,
}

/// The deductions that a shop knows.
#[derive(Debug, Drop)]
pub struct AllowTable {
    pub rows: Vec<AllowRow>,
}

/// Why a table gives a part no deduction.
#[derive(Clone, Copy, Debug, PartialEq, Eq)]
pub enum AllowFault {
    /// No row matches.
    NoRow,
    /// At least two rows match.
    TwoRows,
    /// The one row that matches gives less than half of the thickness.
    BelowHalfThickness,
}

/// The row is for the part's material, thickness and radius.
fn matches(row: &AllowRow, part: &Part) -> bool
    ensures { result ≡ matches (part_data part.now) (row_data row.now) }
{
    row.material == part.material && row.thickness == part.thickness && row.radius == part.radius
}

/// The half deduction of a row.
fn row_half_deduction(row: &AllowRow) -> i64
    requires { IsAllowRow (row_data row.now) }
    ensures value { result ≡ row_half_deduction (row_data row.now) }
    ensures high { result ≤ℤ greatest_half_deduction }
{
    match row.factor {
        Factor::K(k) => half_deduction(row.radius, row.thickness, k),
        Factor::Measured(q) => q,
    }
}

/// The one row that matches the part.
fn only_match<'a>(rows: &'a [AllowRow], part: &Part) -> Result<&'a AllowRow, AllowFault>
    requires { All (λ row. IsAllowRow (row_data row)) rows.now }
    ensures value { Gives (λ row. row_data row.now) result
        (matching_row (part_data part.now) (map row_data rows.now)) }
    ensures ranges { IfOk result (λ row. IsAllowRow (row_data row.now)) }
{
    let mut found: Option<&AllowRow> = None;
    for row in rows {
        if matches(row, part) {
            if found.is_some() {
                return Err(AllowFault::TwoRows);
            }
            found = Some(row);
        }
    }
    found.ok_or(AllowFault::NoRow)
}

/// Half of one bend's deduction in this part, in micrometres: what each face loses at each bent
/// side. It comes from the one row that has the part's material, thickness and radius, and is at
/// least half of the thickness.
///
/// `NoRow` where no row matches, `TwoRows` where at least two do, and `BelowHalfThickness` where
/// one does and gives less than half of the thickness.
pub fn find(table: &AllowTable, part: &Part) -> Result<i64, AllowFault>
    requires { IsAllowTable (table_data table.now) }
    ensures value { result ≡ half_deduction_in (table_data table.now) (part_data part.now) }
    ensures low { IfOk result (λ q. half_thickness (part_data part.now) ≤ℤ q) }
    ensures high { IfOk result (λ q. q ≤ℤ greatest_half_deduction) }
{
    let row = only_match(&table.rows, part)?;
    let q = row_half_deduction(row);
    if q < part.thickness / 2 {
        return Err(AllowFault::BelowHalfThickness);
    }
    Ok(q)
}
