//! The lines on configurations that break a rule of acceptance.

ghost use Rattle.std.specs.Prelude.{◌≡◌, ◌++◌, codes, decimal};
ghost use Rattle.core_tool.specs.Pieces.{joined, piece_bytes};
ghost use Rattle.core_tool.specs.RuleLines.{field, key_of, line_end, number_or_dash, row_text, rule_line, service_text, stage_text};

use crate::lines::Piece;
use core_host::Name;
use isa_table::row_name;
use plug_api::{ParamFault, RuleRefusal};
use service_reg::Service;
use stage_map::Stage;

/// The number of rows in the instruction table.
const ROWS: u32 = 57;

/// A field of a line: what stands before its value, and the value.
type Field<'a> = (&'static str, Piece<'a>);

/// The line of the first rule that fails, in pieces.
pub fn rule_pieces<'a>(refusal: &'a RuleRefusal) -> [Piece<'a>; 9]
    ensures { joined result ≡ rule_line refusal.now }
{
    match refusal {
        RuleRefusal::UnknownPlugin { entry } => one_field(("rules 1 entry=", number(*entry))),
        RuleRefusal::RepeatedPlugin { entry, other } => two_fields(
            ("rules 2 entry=", number(*entry)),
            (" other=", number(*other)),
        ),
        RuleRefusal::BadParam { entry, fault } => two_fields(
            ("rules 3 entry=", number(*entry)),
            (" key=", Piece::Text(key_of(fault))),
        ),
        RuleRefusal::Missing { service, by } => two_fields(
            ("rules 4 service=", service_piece(*service)),
            (" by=", number_or_dash(*by)),
        ),
        RuleRefusal::Double { service, a, b } => double_pieces(*service, *a, *b),
        RuleRefusal::CycleOfNeeds { plug } => one_field(("rules 6 entry=", number(*plug))),
        RuleRefusal::EncodingClash {
            entry,
            row,
            other,
            other_row,
        } => clash_pieces(*entry, *row, *other, *other_row),
        RuleRefusal::IsaMissing { row } => one_field(("rules 8 row=", row_piece(*row))),
        RuleRefusal::IsaExtra { entry, row } => two_fields(
            ("rules 9 entry=", number(*entry)),
            (" row=", row_piece(*row)),
        ),
        RuleRefusal::StageAbsent { plug, stage } => two_fields(
            ("rules 10 plug=", number_or_dash(*plug)),
            (" stage=", stage_piece(*stage)),
        ),
        RuleRefusal::StageOrder {
            key,
            reader,
            writer,
        } => order_pieces(key, *reader, *writer),
        RuleRefusal::KeyTwice { key, a, b } => twice_pieces(key, *a, *b),
        RuleRefusal::TooLarge { wanted, limit } => two_fields(
            ("rules 13 wanted=", Piece::Decimal(*wanted)),
            (" limit=", number(*limit)),
        ),
        RuleRefusal::NoMemory => [Piece::Text(""); 9],
    }
}

/// The line on a service that two entries offer.
fn double_pieces<'a>(service: Service, a: u32, b: u32) -> [Piece<'a>; 9]
    ensures { joined result ≡ rule_line (RuleRefusal.Double service a b) }
{
    fields(
        ("rules 5 service=", service_piece(service)),
        (" entry=", number(a)),
        (" other=", number(b)),
        no_field(),
    )
}

/// The line on two claims that overlap.
fn clash_pieces<'a>(entry: u32, row: u32, other: u32, other_row: u32) -> [Piece<'a>; 9]
    ensures { joined result ≡ rule_line (RuleRefusal.EncodingClash entry row other other_row) }
{
    fields(
        ("rules 7 entry=", number(entry)),
        (" row=", row_piece(row)),
        (" other=", number(other)),
        (" other_row=", row_piece(other_row)),
    )
}

/// The line on a key that is read before it is written.
fn order_pieces<'a>(key: &'a Name, reader: u32, writer: Option<u32>) -> [Piece<'a>; 9]
    ensures { joined result ≡ rule_line (RuleRefusal.StageOrder key.now reader writer) }
{
    fields(
        ("rules 11 key=", Piece::Text(key.text().as_str())),
        (" reader=", number(reader)),
        (" writer=", number_or_dash(writer)),
        no_field(),
    )
}

/// The line on a key that two entries write.
fn twice_pieces<'a>(key: &'a Name, a: u32, b: u32) -> [Piece<'a>; 9]
    ensures { joined result ≡ rule_line (RuleRefusal.KeyTwice key.now a b) }
{
    fields(
        ("rules 12 key=", Piece::Text(key.text().as_str())),
        (" entry=", number(a)),
        (" other=", number(b)),
        no_field(),
    )
}

/// What stands where a line has fewer fields.
fn no_field<'a>() -> Field<'a>
    ensures name { result.0.now ≡ codes "" }
    ensures value { piece_bytes result.1 ≡ codes "" }
{
    ("", Piece::Text(""))
}

/// The line of these fields.
fn fields<'a>(a: Field<'a>, b: Field<'a>, c: Field<'a>, d: Field<'a>) -> [Piece<'a>; 9]
    ensures { joined result ≡ field a.entry.0.now (piece_bytes a.entry.1) (field b.entry.0.now (piece_bytes b.entry.1)
        (field c.entry.0.now (piece_bytes c.entry.1) (field d.entry.0.now (piece_bytes d.entry.1) line_end))) }
{
    [
        Piece::Text(a.0),
        a.1,
        Piece::Text(b.0),
        b.1,
        Piece::Text(c.0),
        c.1,
        Piece::Text(d.0),
        d.1,
        Piece::Text("\n"),
    ]
}

fn one_field<'a>(a: Field<'a>) -> [Piece<'a>; 9]
    ensures { joined result ≡ field a.entry.0.now (piece_bytes a.entry.1) line_end }
{
    fields(a, no_field(), no_field(), no_field())
}

fn two_fields<'a>(a: Field<'a>, b: Field<'a>) -> [Piece<'a>; 9]
    ensures { joined result ≡ field a.entry.0.now (piece_bytes a.entry.1) (field b.entry.0.now (piece_bytes b.entry.1) line_end) }
{
    fields(a, b, no_field(), no_field())
}

fn number<'a>(number: u32) -> Piece<'a>
    ensures { piece_bytes result ≡ decimal number }
{
    Piece::Decimal(u64::from(number))
}

/// The number of an entry, or `-` where there is none.
fn number_or_dash<'a>(entry: Option<u32>) -> Piece<'a>
    ensures { piece_bytes result ≡ number_or_dash entry }
{
    match entry {
        Some(entry) => number(entry),
        None => Piece::Text("-"),
    }
}

/// The name of a row of the instruction table, or the number of another row.
fn row_piece<'a>(row: u32) -> Piece<'a>
    ensures { piece_bytes result ≡ row_text row }
{
    if row < ROWS {
        Piece::Text(row_name(row))
    } else {
        number(row)
    }
}

/// The key of the parameter that is refused.
fn key_of(fault: &ParamFault) -> &str
    ensures { result.now ≡ key_of fault.now }
{
    match fault {
        ParamFault::Unknown { key } | ParamFault::Range { key, .. } => key.text().as_str(),
        ParamFault::NoMemory => "",
    }
}

fn service_piece<'a>(service: Service) -> Piece<'a>
    ensures { piece_bytes result ≡ service_text service }
{
    Piece::Text(match service {
        Service::Fetch => "fetch",
        Service::Predict => "predict",
        Service::Decoder => "decoder",
        Service::RegFile => "regfile",
        Service::Hazard => "hazard",
        Service::Exec => "exec",
        Service::DataBus => "databus",
        Service::System => "system",
    })
}

fn stage_piece<'a>(stage: Stage) -> Piece<'a>
    ensures { piece_bytes result ≡ stage_text stage }
{
    Piece::Text(match stage {
        Stage::Decode => "decode",
        Stage::Execute => "execute",
        Stage::Memory => "memory",
        Stage::Writeback => "writeback",
    })
}
