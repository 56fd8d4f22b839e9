ghost use Rattle.std.specs.Prelude.{◌≡◌, ◌≤◌, IfOk};
ghost use Rattle.toml.specs.View.{table_view};
ghost use Rattle.af_script.specs.Reading.{number_in, number_or};

use crate::fault::{KeyId, ScriptFault};
use crate::tree::{integer_at, value_at};
use toml::Table;

/// The number at a key of a numbered table, in a range.
pub fn number_in(
    table: &Table,
    number: u32,
    key: KeyId,
    low: u32,
    high: u32,
) -> Result<u32, ScriptFault>
    ensures number { result ≡ number_in number key low high (table_view table.now) }
    ensures range { IfOk result (λ value. (low ≤ value) × (value ≤ high)) }
{
    let Some(value) = integer_at(table, key) else {
        return Err(ScriptFault::Key { table: number, key });
    };
    if i64::from(low) <= value && value <= i64::from(high) {
        Ok(value as u32)
    } else {
        Err(ScriptFault::Range {
            table: number,
            key,
            value,
        })
    }
}

/// The number at a key of a numbered table, from 0 on, or a default if the key is missing.
pub fn number_or(
    table: &Table,
    number: u32,
    key: KeyId,
    high: u32,
    default: u32,
) -> Result<u32, ScriptFault>
    requires { default ≤ high }
    ensures number { result ≡ number_or number key high default (table_view table.now) }
    ensures range { IfOk result (λ value. value ≤ high) }
{
    match value_at(table, key) {
        Some(_) => number_in(table, number, key, 0, high),
        None => Ok(default),
    }
}
