ghost use Rattle.std.specs.Prelude.{true, [], ◌∷◌, ◌++◌, ◌≡◌, OnOk};
ghost use Rattle.verilog_tree.specs.Read as spec;
ghost use Rattle.verilog_tree.specs.Readers.{is_mark, same_sign};
ghost use Rattle.verilog_read.specs.Seen.{sign_seen, seen};
ghost use Rattle.verilog_read.specs.Answer.{Answers};
ghost use Rattle.verilog_read.specs.Lists.{items_from, ports_from};

use crate::cursor::{
    Cursor, Fault, expect, keyword, literal, name, next_is_sign, next_is_word, number, same,
};
use crate::expr::parse;
use crate::token::Sign;
use core_host::List;
use std::alloc::{AllocError, Global};
use verilog_tree::{Driver, Expr, Ident, Item, Pair, PortDecl, Stmt, Tree};

/// `[ number : number ]`
#[tactic(auto, unfolding(verilog_tree::specs::Read::pair))]
fn pair(cursor: &mut Cursor<'_>) -> Result<Pair, Fault>
    ensures { Answers (λ p. p) (spec.pair (seen cursor.old.tokens.now)) result (seen cursor.new.tokens.now) }
{
    let at = expect(cursor, Sign::OpenBracket)?;
    let first = number(cursor)?;
    let _colon = expect(cursor, Sign::Colon)?;
    let second = number(cursor)?;
    let _close = expect(cursor, Sign::CloseBracket)?;
    Ok(Pair { at, first, second })
}

/// A range, if there is one.
#[tactic(auto, unfolding(verilog_tree::specs::Read::range))]
fn range(cursor: &mut Cursor<'_>) -> Result<Option<Pair>, Fault>
    ensures { Answers (λ r. r) (spec.range (seen cursor.old.tokens.now)) result (seen cursor.new.tokens.now) }
{
    if next_is_sign(cursor, Sign::OpenBracket) {
        Ok(Some(pair(cursor)?))
    } else {
        Ok(None)
    }
}

/// An expression, no deeper than 64.
#[tactic(auto, unfolding(verilog_tree::specs::Read::expr))]
fn expr(alloc: Global, cursor: &mut Cursor<'_>) -> Result<Expr, Fault>
    ensures { Answers (λ e. e) (spec.expr (seen cursor.old.tokens.now)) result (seen cursor.new.tokens.now) }
{
    let found = parse(alloc, cursor, 64, 0)?;
    Ok(found.expr)
}

/// A sign, an expression and `;`.
#[tactic(auto, unfolding(verilog_tree::specs::Read::driver))]
fn driver(alloc: Global, cursor: &mut Cursor<'_>, sign: Sign) -> Result<Driver, Fault>
    requires { same_sign (sign_seen sign) (sign_seen sign) ≡ true }
    ensures { Answers (λ d. d) (spec.driver (sign_seen sign) (seen cursor.old.tokens.now)) result (seen cursor.new.tokens.now) }
{
    let sign_at = expect(cursor, sign)?;
    let value = expr(alloc, cursor)?;
    let _end = expect(cursor, Sign::Semicolon)?;
    Ok(Driver { sign_at, value })
}

/// `= expr ;`, or `;` alone.
#[tactic(auto, unfolding(verilog_tree::specs::Read::driven))]
fn driven(alloc: Global, cursor: &mut Cursor<'_>) -> Result<Option<Driver>, Fault>
    ensures { Answers (λ d. d) (spec.driven (seen cursor.old.tokens.now)) result (seen cursor.new.tokens.now) }
{
    if next_is_sign(cursor, Sign::Semicolon) {
        let _end = expect(cursor, Sign::Semicolon)?;
        Ok(None)
    } else {
        Ok(Some(driver(alloc, cursor, Sign::Assign)?))
    }
}

/// `wire [range] name [= expr] ;`
#[tactic(auto, unfolding(verilog_tree::specs::Read::wire))]
fn wire(alloc: Global, cursor: &mut Cursor<'_>) -> Result<Item, Fault>
    ensures { Answers (λ i. i) (spec.wire (seen cursor.old.tokens.now)) result (seen cursor.new.tokens.now) }
{
    let at = keyword(cursor, "wire")?;
    let range = range(cursor)?;
    let name = name(alloc, cursor)?;
    let driver = driven(alloc, cursor)?;
    Ok(Item::Wire {
        at,
        range,
        name,
        driver,
    })
}

/// `reg [range] name [[number : number]] ;`
#[tactic(auto, unfolding(verilog_tree::specs::Read::reg))]
fn reg(alloc: Global, cursor: &mut Cursor<'_>) -> Result<Item, Fault>
    ensures { Answers (λ i. i) (spec.reg (seen cursor.old.tokens.now)) result (seen cursor.new.tokens.now) }
{
    let at = keyword(cursor, "reg")?;
    let first = range(cursor)?;
    let name = name(alloc, cursor)?;
    let cells = range(cursor)?;
    let _end = expect(cursor, Sign::Semicolon)?;
    Ok(Item::Reg {
        at,
        range: first,
        name,
        cells,
    })
}

/// `assign name = expr ;`
#[tactic(auto, unfolding(verilog_tree::specs::Read::assign))]
fn assign(alloc: Global, cursor: &mut Cursor<'_>) -> Result<Item, Fault>
    ensures { Answers (λ i. i) (spec.assign (seen cursor.old.tokens.now)) result (seen cursor.new.tokens.now) }
{
    let at = keyword(cursor, "assign")?;
    let target = name(alloc, cursor)?;
    let driver = driver(alloc, cursor, Sign::Assign)?;
    Ok(Item::Assign { at, target, driver })
}

/// `name <= expr ;`
#[tactic(auto, unfolding(verilog_tree::specs::Read::next_value))]
fn next_value(alloc: Global, cursor: &mut Cursor<'_>) -> Result<Stmt, Fault>
    ensures { Answers (λ s. s) (spec.next_value (seen cursor.old.tokens.now)) result (seen cursor.new.tokens.now) }
{
    let target = name(alloc, cursor)?;
    let driver = driver(alloc, cursor, Sign::LessEqual)?;
    Ok(Stmt::Next { target, driver })
}

/// Behind `if ( reset ) name`.
#[tactic(auto, unfolding(verilog_tree::specs::Read::reset_behind))]
fn reset_behind(
    alloc: Global,
    cursor: &mut Cursor<'_>,
    at: u32,
    first: Ident,
) -> Result<Stmt, Fault>
    ensures { Answers (λ s. s) (spec.reset_behind at first (seen cursor.old.tokens.now)) result (seen cursor.new.tokens.now) }
{
    let first_sign_at = expect(cursor, Sign::LessEqual)?;
    let start = literal(cursor)?;
    let _end = expect(cursor, Sign::Semicolon)?;
    let _other = keyword(cursor, "else")?;
    let target = name(alloc, cursor)?;
    let driver = driver(alloc, cursor, Sign::LessEqual)?;
    Ok(Stmt::Reset {
        at,
        first,
        first_sign_at,
        start,
        target,
        driver,
    })
}

/// Behind `if ( expr ) name`.
#[tactic(auto, unfolding(verilog_tree::specs::Read::write_behind))]
fn write_behind(
    alloc: Global,
    cursor: &mut Cursor<'_>,
    at: u32,
    paren_at: u32,
    enable: Expr,
    target: Ident,
) -> Result<Stmt, Fault>
    ensures { Answers (λ s. s) (spec.write_behind at paren_at enable target (seen cursor.old.tokens.now)) result (seen cursor.new.tokens.now) }
{
    let bracket_at = expect(cursor, Sign::OpenBracket)?;
    let index = expr(alloc, cursor)?;
    let _close = expect(cursor, Sign::CloseBracket)?;
    let driver = driver(alloc, cursor, Sign::LessEqual)?;
    Ok(Stmt::Write {
        at,
        paren_at,
        enable,
        target,
        bracket_at,
        index,
        driver,
    })
}

/// Whether an expression is the name `reset`.
fn is_reset(expr: &Expr) -> bool
    ensures { result ≡ spec.is_reset expr.now }
{
    match expr {
        Expr::Named(name) => same(&name.text, "reset"),
        _ => false,
    }
}

/// A reset, or a write to an array: they are told apart by the test and by what stands behind the name.
#[tactic(auto, unfolding(verilog_tree::specs::Read::conditional))]
fn conditional(alloc: Global, cursor: &mut Cursor<'_>) -> Result<Stmt, Fault>
    ensures { Answers (λ s. s) (spec.conditional (seen cursor.old.tokens.now)) result (seen cursor.new.tokens.now) }
{
    let at = keyword(cursor, "if")?;
    let paren_at = expect(cursor, Sign::Open)?;
    let enable = expr(alloc, cursor)?;
    let _close = expect(cursor, Sign::Close)?;
    let target = name(alloc, cursor)?;
    if is_reset(&enable) && next_is_sign(cursor, Sign::LessEqual) {
        reset_behind(alloc, cursor, at, target)
    } else {
        write_behind(alloc, cursor, at, paren_at, enable, target)
    }
}

/// A statement, told by its first word.
#[tactic(auto, unfolding(verilog_tree::specs::Read::stmt))]
fn stmt(alloc: Global, cursor: &mut Cursor<'_>) -> Result<Stmt, Fault>
    ensures { Answers (λ s. s) (spec.stmt (seen cursor.old.tokens.now)) result (seen cursor.new.tokens.now) }
{
    if next_is_word(cursor, "if") {
        conditional(alloc, cursor)
    } else {
        next_value(alloc, cursor)
    }
}

/// `always @ ( posedge clk ) stmt`
#[tactic(auto, unfolding(verilog_tree::specs::Read::always))]
fn always(alloc: Global, cursor: &mut Cursor<'_>) -> Result<Item, Fault>
    ensures { Answers (λ i. i) (spec.always (seen cursor.old.tokens.now)) result (seen cursor.new.tokens.now) }
{
    let at = keyword(cursor, "always")?;
    let _sign = expect(cursor, Sign::At)?;
    let _open = expect(cursor, Sign::Open)?;
    let _edge = keyword(cursor, "posedge")?;
    let _clock = keyword(cursor, "clk")?;
    let _close = expect(cursor, Sign::Close)?;
    let stmt = stmt(alloc, cursor)?;
    Ok(Item::Always { at, stmt })
}

/// An item, told by its first word.
#[tactic(auto, unfolding(verilog_tree::specs::Read::item))]
fn item(alloc: Global, cursor: &mut Cursor<'_>) -> Result<Item, Fault>
    ensures { Answers (λ i. i) (spec.item (seen cursor.old.tokens.now)) result (seen cursor.new.tokens.now) }
{
    if next_is_word(cursor, "wire") {
        wire(alloc, cursor)
    } else if next_is_word(cursor, "reg") {
        reg(alloc, cursor)
    } else if next_is_word(cursor, "assign") {
        assign(alloc, cursor)
    } else {
        always(alloc, cursor)
    }
}

/// `wire`, if it is there.
#[tactic(auto, unfolding(verilog_tree::specs::Read::optional_wire))]
fn optional_wire(cursor: &mut Cursor<'_>) -> Result<(), Fault>
    ensures { Answers (λ _. tt) (spec.optional_wire (seen cursor.old.tokens.now)) result (seen cursor.new.tokens.now) }
{
    if next_is_word(cursor, "wire") {
        let _at = keyword(cursor, "wire")?;
    }
    Ok(())
}

/// The port behind `input` or `output`.
#[tactic(auto, unfolding(verilog_tree::specs::Read::port_of))]
fn port_of(
    alloc: Global,
    cursor: &mut Cursor<'_>,
    input: bool,
    word: &str,
) -> Result<PortDecl, Fault>
    ensures { Answers (λ p. p) (spec.port_of input word.now (seen cursor.old.tokens.now)) result (seen cursor.new.tokens.now) }
{
    let at = keyword(cursor, word)?;
    optional_wire(cursor)?;
    let range = range(cursor)?;
    let name = name(alloc, cursor)?;
    Ok(PortDecl {
        at,
        input,
        range,
        name,
    })
}

/// `input` or `output`, and then `[wire] [range] name`.
#[tactic(auto, unfolding(verilog_tree::specs::Read::port))]
fn port(alloc: Global, cursor: &mut Cursor<'_>) -> Result<PortDecl, Fault>
    ensures { Answers (λ p. p) (spec.port (seen cursor.old.tokens.now)) result (seen cursor.new.tokens.now) }
{
    if next_is_word(cursor, "input") {
        port_of(alloc, cursor, true, "input")
    } else {
        port_of(alloc, cursor, false, "output")
    }
}

/// Adds an element behind the others.
fn add<T: Drop>(list: &mut Vec<T>, element: T) -> Result<(), AllocError>
    ensures { OnOk result (list.new.items ≡ list.old.items ++ element ∷ []) }
{
    list.push(element)?;
    Ok(())
}

/// The items up to `endmodule`.
fn all_items(alloc: Global, cursor: &mut Cursor<'_>, most: usize) -> Result<Vec<Item>, Fault>
    ensures { Answers (λ l. l.items) (items_from most [] (seen cursor.old.tokens.now)) result (seen cursor.new.tokens.now) }
{
    let mut found = Vec::new(alloc);
    for _turn in 0..most {
        if next_is_word(cursor, "endmodule") {
            return Ok(found);
        }
        add(&mut found, item(alloc, cursor)?)?;
    }
    Err(Fault::Wrong)
}

/// The ports, and `)`.
fn all_ports(alloc: Global, cursor: &mut Cursor<'_>, most: usize) -> Result<Vec<PortDecl>, Fault>
    ensures { Answers (λ l. l.items) (ports_from most [] (seen cursor.old.tokens.now)) result (seen cursor.new.tokens.now) }
{
    let mut found = Vec::new(alloc);
    for _turn in 0..most {
        add(&mut found, port(alloc, cursor)?)?;
        if !next_is_sign(cursor, Sign::Comma) {
            let _close = expect(cursor, Sign::Close)?;
            return Ok(found);
        }
        let _comma = expect(cursor, Sign::Comma)?;
    }
    Err(Fault::Wrong)
}

/// The module at the front of the tokens.
#[tactic(auto, using(crate::proofs::Fronts::lists), unfolding(verilog_tree::specs::Read::module_of))]
pub fn module_of(alloc: Global, cursor: &mut Cursor<'_>, most: usize) -> Result<Tree, Fault>
    ensures { Answers (λ t. t) (spec.module_of most (seen cursor.old.tokens.now)) result (seen cursor.new.tokens.now) }
{
    let at = keyword(cursor, "module")?;
    let name = name(alloc, cursor)?;
    let _open = expect(cursor, Sign::Open)?;
    let ports = all_ports(alloc, cursor, most)?;
    let _end = expect(cursor, Sign::Semicolon)?;
    let items = all_items(alloc, cursor, most)?;
    let _last = keyword(cursor, "endmodule")?;
    Ok(Tree {
        at,
        name,
        ports: List::of(ports),
        items: List::of(items),
    })
}
