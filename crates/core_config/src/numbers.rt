ghost use Rattle.std.specs.Prelude.{◌≡◌, ◌<◌, option_map};
ghost use Rattle.toml.specs.Data.{get_member};
ghost use Rattle.toml.specs.View.{table_view, view};
ghost use Rattle.core_config.specs.Config.{IsAnswer, or_empty, number_of, number_within};

use crate::refusal::{ConfigRefusal, Want, number_refusal, shape_refusal};
use std::alloc::Global;
use toml::{Table, Value};

/// The numbers that a key may have: from `low` to `high`, multiples of `step`, and which it has where it is absent.
#[derive(Clone, Copy)]
pub struct NumberRule {
    pub default: u32,
    pub low: u32,
    pub high: u32,
    pub step: u32,
}

/// The value of a key.
pub fn find<'a>(table: &'a Table, name: &str) -> Option<&'a Value>
    ensures { option_map (λ v. view v.now) result ≡ get_member name.now (table_view table.now) }
{
    table.get(name)
}

/// The value of a key, if the table is there.
pub fn find_in<'a>(table: Option<&'a Table>, name: &str) -> Option<&'a Value>
    ensures { option_map (λ v. view v.now) result
        ≡ get_member name.now (or_empty (option_map (λ t. table_view t.now) table.entry)) }
{
    match table {
        Some(table) => find(table, name),
        None => None,
    }
}

/// Reads the number of a key, whose printed name is `key`.
pub fn read_number(
    alloc: Global,
    value: Option<&Value>,
    key: &str,
    rule: NumberRule,
) -> Result<u32, ConfigRefusal>
    requires { 0 < rule.step }
    ensures { IsAnswer result (number_of key.now rule (option_map (λ v. view v.now) value.entry)) }
{
    match value {
        None => Ok(rule.default),
        Some(Value::Integer(number)) => within(alloc, key, rule, *number),
        Some(_) => Err(shape_refusal(alloc, None, key, Want::Integer)),
    }
}

/// A number, unless it is outside.
fn within(alloc: Global, key: &str, rule: NumberRule, number: i64) -> Result<u32, ConfigRefusal>
    requires { 0 < rule.step }
    ensures { IsAnswer result (number_within key.now rule number) }
{
    if number < i64::from(rule.low) || number > i64::from(rule.high) {
        return Err(number_refusal(alloc, key, number));
    }
    let value = number as u32;
    if value % rule.step != 0 {
        return Err(number_refusal(alloc, key, number));
    }
    Ok(value)
}
