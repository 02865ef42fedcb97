use core_host::{List, Name};
use stage_map::{Key, KeyUse, Param, ParamValue, PlugEntry, Stage, StageMap, StageRefusal};
use std::alloc::{AllocError, Global};

/// A use of a key: the entry, the key's name, the stage, and whether it writes the key.
type Row = (u32, &'static str, Stage, bool);

/// What a map answers.
#[derive(Clone, Copy)]
enum Wanted {
    Fits,
    Absent(Option<u32>, Stage),
    Order(&'static str, u32, Option<u32>),
    Twice(&'static str, u32, u32),
}

/// At most eight uses of keys in a core of so many stages, the places of entries, the stage of the commit, and the answer.
#[derive(Clone, Copy)]
struct Case {
    stages: u32,
    uses: &'static [Row],
    places: &'static [Option<Stage>],
    commit: Stage,
    wanted: Wanted,
}

/// Three stages, with no places and the commit in execute.
const PLAIN: Case = Case {
    stages: 3,
    uses: &[],
    places: &[],
    commit: Stage::Execute,
    wanted: Wanted::Fits,
};

/// Uses in each stage.
const IN_EACH: &[Row] = &[
    (5, "a", Stage::Writeback, true),
    (2, "b", Stage::Execute, true),
    (2, "c", Stage::Memory, true),
    (2, "d", Stage::Writeback, true),
    (0, "e", Stage::Decode, false),
];

const CASES: &[Case] = &[
    // The first absent stage: that of the commit, of a place, of a use.
    Case {
        stages: 2,
        uses: IN_EACH,
        places: &[None, Some(Stage::Writeback), Some(Stage::Memory)],
        commit: Stage::Memory,
        wanted: Wanted::Absent(None, Stage::Memory),
    },
    Case {
        stages: 2,
        uses: IN_EACH,
        places: &[None, Some(Stage::Writeback), Some(Stage::Memory)],
        wanted: Wanted::Absent(Some(1), Stage::Writeback),
        ..PLAIN
    },
    Case {
        stages: 2,
        uses: IN_EACH,
        places: &[None, Some(Stage::Execute)],
        wanted: Wanted::Absent(Some(2), Stage::Memory),
        ..PLAIN
    },
    Case {
        uses: IN_EACH,
        wanted: Wanted::Absent(Some(2), Stage::Writeback),
        ..PLAIN
    },
    // Each stage is there.
    Case {
        stages: 4,
        uses: IN_EACH,
        wanted: Wanted::Order("e", 0, None),
        ..PLAIN
    },
    // A read before the write, at it and behind it.
    Case {
        uses: &[
            (0, "sum", Stage::Execute, true),
            (1, "sum", Stage::Decode, false),
        ],
        wanted: Wanted::Order("sum", 1, Some(0)),
        ..PLAIN
    },
    Case {
        uses: &[
            (0, "sum", Stage::Execute, true),
            (1, "sum", Stage::Execute, false),
        ],
        ..PLAIN
    },
    Case {
        uses: &[
            (0, "sum", Stage::Execute, true),
            (1, "sum", Stage::Memory, false),
        ],
        ..PLAIN
    },
    // The least entry, then the place.
    Case {
        stages: 2,
        uses: &[
            (4, "a", Stage::Decode, false),
            (3, "c", Stage::Decode, false),
            (3, "b", Stage::Decode, false),
            (2, "c", Stage::Execute, true),
        ],
        wanted: Wanted::Order("c", 3, Some(2)),
        ..PLAIN
    },
    // The write of the least entry.
    Case {
        uses: &[
            (2, "a", Stage::Execute, true),
            (5, "a", Stage::Execute, false),
            (1, "a", Stage::Memory, true),
        ],
        wanted: Wanted::Order("a", 5, Some(1)),
        ..PLAIN
    },
    // The first write of an entry.
    Case {
        uses: &[
            (1, "a", Stage::Memory, true),
            (1, "a", Stage::Execute, true),
            (0, "a", Stage::Execute, false),
        ],
        wanted: Wanted::Order("a", 0, Some(1)),
        ..PLAIN
    },
    // The first of the keys of entry 1 that entry 6 writes.
    Case {
        stages: 2,
        uses: &[
            (5, "a", Stage::Decode, true),
            (2, "a", Stage::Decode, true),
            (1, "b", Stage::Decode, true),
            (7, "b", Stage::Decode, true),
            (6, "d", Stage::Decode, true),
            (1, "c", Stage::Decode, true),
            (6, "c", Stage::Decode, true),
            (1, "d", Stage::Decode, true),
        ],
        wanted: Wanted::Twice("c", 1, 6),
        ..PLAIN
    },
    // Reads come before.
    Case {
        stages: 2,
        uses: &[
            (5, "a", Stage::Decode, true),
            (2, "a", Stage::Decode, true),
            (9, "z", Stage::Execute, false),
        ],
        wanted: Wanted::Order("z", 9, None),
        ..PLAIN
    },
    // One entry writes twice.
    Case {
        stages: 2,
        uses: &[
            (1, "b", Stage::Decode, true),
            (1, "b", Stage::Decode, true),
            (0, "b", Stage::Execute, false),
        ],
        ..PLAIN
    },
];

fn name(alloc: Global, text: &str) -> Result<Name, AllocError> {
    Ok(Name::of(String::from_str(alloc, text)?))
}

/// The use of a key of `32 - entry` bits.
fn key_use(alloc: Global, row: Row) -> Result<KeyUse, AllocError> {
    let (entry, key, at, writes) = row;
    Ok(KeyUse {
        key: Key {
            name: name(alloc, key)?,
            width: 32 - entry % 32,
        },
        at,
        writes,
    })
}

/// What a map answers to a case, with its uses noted in their order.
fn answer(alloc: Global, case: &Case) -> Result<(), StageRefusal> {
    let Ok(map) = map_of(alloc, case) else {
        return Err(StageRefusal::NoMemory);
    };
    match Vec::from_slice(alloc, case.places) {
        Ok(places) if places.len() < 100 => map.check(alloc, &places, case.commit),
        _ => Err(StageRefusal::NoMemory),
    }
}

fn map_of(alloc: Global, case: &Case) -> Result<StageMap, AllocError> {
    let mut map = StageMap::with_room(alloc, case.stages, 8)?;
    for row in case.uses {
        if map.room() > 0 {
            map.note(row.0, key_use(alloc, *row)?);
        }
    }
    Ok(map)
}

fn is_wanted(answer: &Result<(), StageRefusal>, wanted: Wanted) -> bool {
    match (answer, wanted) {
        (Ok(()), Wanted::Fits) => true,
        (Err(StageRefusal::StageAbsent { plug, stage }), Wanted::Absent(entry, at)) => {
            *plug == entry && *stage == at
        }
        (
            Err(
                StageRefusal::StageOrder {
                    key,
                    reader,
                    writer,
                },
            ),
            Wanted::Order(name, by, from),
        ) => key.is(name) && *reader == by && *writer == from,
        (Err(StageRefusal::KeyTwice { key, a, b }), Wanted::Twice(name, first, second)) => {
            key.is(name) && *a == first && *b == second
        }
        _ => false,
    }
}

/// The number of the first case whose answer is not the wanted one.
pub fn first_wrong(alloc: Global) -> Option<usize> {
    for (number, case) in CASES.iter().enumerate() {
        if !is_wanted(&answer(alloc, case), case.wanted) {
            return Some(number);
        }
    }
    None
}

/// Whether copies of an entry and of a use have what these have.
pub fn copies_are_the_same(alloc: Global) -> Result<bool, AllocError> {
    let params = vec![in alloc;
        Param {
            key: name(alloc, "base")?,
            value: ParamValue::Num(-4)
        },
        Param {
            key: name(alloc, "fast")?,
            value: ParamValue::Flag(true)
        },
        Param {
            key: name(alloc, "mode")?,
            value: ParamValue::Word(name(alloc, "w")?)
        },
    ]?;
    let entry = PlugEntry {
        kind: name(alloc, "adder")?,
        params: List::of(params),
    };
    let copy = entry.copy(alloc)?;
    let used = key_use(alloc, (3, "sum", Stage::Memory, false))?.copy(alloc)?;
    Ok(
        copy.kind.is("adder")
            && copy.params.items().len() == 3
            && matches!(&copy.params.items()[2].value, ParamValue::Word(w) if w.is("w"))
            && used.key.name.is("sum")
            && used.key.width == 29
            && used.at == Stage::Memory,
    )
}
