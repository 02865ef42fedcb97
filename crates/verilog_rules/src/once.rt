ghost use Rattle.std.specs.Prelude.{◌≡◌, [], IfOk, IfErr, map};
ghost use Rattle.verilog_mean.specs.Names.{repeated};
ghost use Rattle.verilog_rules.specs.Collected.{declaration};
ghost use Rattle.verilog_rules.specs.First.{Refuses};

use crate::declare::Declared;
use crate::table::Table;
use std::alloc::Global;
use verilog_mean::MeanRefusal;

/// First rule: the table of the declarations, where no name is declared again.

pub fn table_of<'a>(alloc: Global, all: &[Declared<'a>]) -> Result<Table<'a>, MeanRefusal>
    ensures table { IfOk result (λ table. table ≡ map declaration all.now) }
    ensures sound { IfOk result (λ _. repeated [] (map declaration all.now) ≡ []) }
    ensures refused { IfErr result (λ r. Refuses r (repeated [] (map declaration all.now))) }
{
    let mut table = Table::new(alloc);
    for d in all {
        if table.knows(&d.name.text) {
            return Err(MeanRefusal::NameTwice { at: d.name.at });
        }
        match table.add(*d) {
            Ok(()) => {}
            Err(_) => return Err(MeanRefusal::NoMemory),
        }
    }
    Ok(table)
}
