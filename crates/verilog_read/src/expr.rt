ghost use Rattle.std.specs.Prelude.{List, [], ◌∷◌, length, ◌≡◌, ◌≤◌, ◌<◌, ◌+◌, IfOk};
ghost use Rattle.verilog_tree.specs.Lexemes as lexeme;
ghost use Rattle.verilog_tree.specs.Grammar.{level_of as level_of_operator};
ghost use Rattle.verilog_tree.specs.Parse as spec;
ghost use Rattle.verilog_tree.specs.Depth.{depth_of, deepest_of};
ghost use Rattle.verilog_read.specs.Seen.{sign_seen, seen};
ghost use Rattle.verilog_read.specs.Answer.{Answers};
ghost use Rattle.verilog_read.specs.Expressions.{HasDepth, IsNext, operand, separates, parts_from};

use crate::cursor::{Cursor, Fault, expect, ident, is_reserved, number};
use crate::token::{Placed, Sign, Token};
use sqlite_items::{Boxed, Items};
use std::alloc::Global;
use verilog_tree::{BinSign, Expr, Ident, Lit, Num, Pair};

/// An expression and its depth.
#[derive(Drop)]
pub struct Found {
    pub expr: Expr,
    pub depth: u32,
}

/// How tightly an operator binds.
fn level_of(operator: BinSign) -> u8
    ensures { result ≡ level_of_operator operator }
{
    match operator {
        BinSign::Or => 1,
        BinSign::Xor => 2,
        BinSign::And => 3,
        BinSign::Equal => 4,
        BinSign::Less => 5,
        BinSign::Plus | BinSign::Minus => 6,
    }
}

/// Some bits of a name, behind their first number.
#[tactic(auto, unfolding(verilog_tree::specs::Parse::selection))]
fn selection(cursor: &mut Cursor<'_>, name: Ident, at: u32, first: Num) -> Result<Expr, Fault>
    ensures read { Answers (λ e. e) (spec.selection name at first (seen cursor.old.tokens.now)) result (seen cursor.new.tokens.now) }
    ensures depth { IfOk result (λ e. depth_of e ≡ 1) }
{
    let _colon = expect(cursor, Sign::Colon)?;
    let second = number(cursor)?;
    let _close = expect(cursor, Sign::CloseBracket)?;
    Ok(Expr::Select {
        name,
        bits: Pair { at, first, second },
    })
}

/// An expression in parentheses, behind `(`.
#[cycle(expr)]
#[tactic(auto, using(verilog_tree::proofs::Depths::depths), unfolding(verilog_tree::specs::Parse::paren))]
fn paren(alloc: Global, cursor: &mut Cursor<'_>, depth: u32, at: u32) -> Result<Found, Fault>
    requires { depth < 64 }
    ensures read { Answers (λ f. f.expr) (spec.paren (spec.parse depth) at (seen cursor.old.tokens.now)) result (seen cursor.new.tokens.now) }
    ensures depth { HasDepth (depth + 1) result }
{
    let inner = parse(alloc, cursor, depth, 0)?;
    let _close = expect(cursor, Sign::Close)?;
    Ok(Found {
        depth: inner.depth + 1,
        expr: Expr::Paren {
            at,
            inner: Boxed::new(alloc, inner.expr)?,
        },
    })
}

/// The operand of `~`, behind it.
#[cycle(expr)]
#[tactic(auto, using(verilog_tree::proofs::Depths::depths), unfolding(verilog_tree::specs::Parse::negated))]
fn negated(alloc: Global, cursor: &mut Cursor<'_>, depth: u32, at: u32) -> Result<Found, Fault>
    requires { depth < 64 }
    ensures read { Answers (λ f. f.expr) (spec.negated (spec.parse depth) at (seen cursor.old.tokens.now)) result (seen cursor.new.tokens.now) }
    ensures depth { HasDepth (depth + 1) result }
{
    let inner = parse(alloc, cursor, depth, 8)?;
    Ok(Found {
        depth: inner.depth + 1,
        expr: Expr::Not {
            at,
            inner: Boxed::new(alloc, inner.expr)?,
        },
    })
}

/// A cell of an array, behind its name and `[`.
#[cycle(expr)]
#[tactic(auto, using(verilog_tree::proofs::Depths::depths), unfolding(verilog_tree::specs::Parse::cell))]
fn cell(
    alloc: Global,
    cursor: &mut Cursor<'_>,
    depth: u32,
    name: Ident,
    bracket_at: u32,
) -> Result<Found, Fault>
    requires { depth < 64 }
    ensures read { Answers (λ f. f.expr) (spec.cell (spec.parse depth) name bracket_at (seen cursor.old.tokens.now)) result (seen cursor.new.tokens.now) }
    ensures depth { HasDepth (depth + 1) result }
{
    let index = parse(alloc, cursor, depth, 0)?;
    let _close = expect(cursor, Sign::CloseBracket)?;
    Ok(Found {
        depth: index.depth + 1,
        expr: Expr::Cell {
            name,
            bracket_at,
            index: Boxed::new(alloc, index.expr)?,
        },
    })
}

/// A name, or some bits or a cell of it, behind the name.
#[cycle(expr)]
fn named(alloc: Global, cursor: &mut Cursor<'_>, depth: u32, name: Ident) -> Result<Found, Fault>
    requires { depth < 64 }
    ensures read { Answers (λ f. f.expr) (spec.named (spec.parse depth) name (seen cursor.old.tokens.now)) result (seen cursor.new.tokens.now) }
    ensures depth { HasDepth (depth + 1) result }
{
    let tokens = cursor.tokens;
    match tokens {
        [
            Placed {
                at: bracket_at,
                token: Token::Mark(Sign::OpenBracket),
            },
            rest @ ..,
        ] => {
            cursor.tokens = rest;
            match rest {
                [
                    Placed {
                        at,
                        token: Token::Number(value),
                    },
                    behind @ ..,
                ] => {
                    cursor.tokens = behind;
                    let first = Num {
                        at: *at,
                        value: *value,
                    };
                    let expr = selection(cursor, name, *bracket_at, first)?;
                    Ok(Found { expr, depth: 1 })
                }
                _ => cell(alloc, cursor, depth, name, *bracket_at),
            }
        }
        _ => Ok(Found {
            expr: Expr::Named(name),
            depth: 1,
        }),
    }
}

/// The two values of a choice, behind its test and `?`.
#[cycle(expr)]
#[tactic(auto, using(verilog_tree::proofs::Depths::depths), unfolding(verilog_tree::specs::Parse::choice))]
fn choice(
    alloc: Global,
    cursor: &mut Cursor<'_>,
    depth: u32,
    test: Found,
    at: u32,
) -> Result<Found, Fault>
    requires depth { depth < 64 }
    requires test { (test.depth ≡ depth_of test.expr) × (test.depth ≤ depth) }
    ensures read { Answers (λ f. f.expr) (spec.choice (spec.parse depth) test.expr at (seen cursor.old.tokens.now)) result (seen cursor.new.tokens.now) }
    ensures depth { HasDepth (depth + 1) result }
{
    let yes = parse(alloc, cursor, depth, 0)?;
    let colon_at = expect(cursor, Sign::Colon)?;
    let no = parse(alloc, cursor, depth, 0)?;
    Ok(Found {
        depth: test.depth.max(yes.depth.max(no.depth)) + 1,
        expr: Expr::Choice {
            question_at: at,
            colon_at,
            test: Boxed::new(alloc, test.expr)?,
            yes: Boxed::new(alloc, yes.expr)?,
            no: Boxed::new(alloc, no.expr)?,
        },
    })
}

/// An operand: behind `~`, at level 8, no second `~` may stand.
#[cycle(expr)]
fn start(alloc: Global, cursor: &mut Cursor<'_>, depth: u32, level: u8) -> Result<Found, Fault>
    requires { depth < 64 }
    ensures read { Answers (λ f. f.expr) (spec.start (spec.parse depth) level (seen cursor.old.tokens.now)) result (seen cursor.new.tokens.now) }
    ensures depth { HasDepth (depth + 1) result }
{
    let tokens = cursor.tokens;
    let [Placed { at, token }, rest @ ..] = tokens else {
        return Err(Fault::Wrong);
    };
    match token {
        Token::Literal { width, value } => {
            cursor.tokens = rest;
            Ok(Found {
                expr: Expr::Literal(Lit {
                    at: *at,
                    width: *width,
                    value: *value,
                }),
                depth: 1,
            })
        }
        Token::Word(word) => {
            if is_reserved(word) {
                return Err(Fault::Wrong);
            }
            cursor.tokens = rest;
            let name = ident(alloc, *at, word)?;
            named(alloc, cursor, depth, name)
        }
        Token::Mark(Sign::Open) => {
            cursor.tokens = rest;
            paren(alloc, cursor, depth, *at)
        }
        Token::Mark(Sign::OpenBrace) => {
            cursor.tokens = rest;
            joined(alloc, cursor, depth, *at)
        }
        Token::Mark(Sign::Not) => {
            if level > 7 {
                return Err(Fault::Wrong);
            }
            cursor.tokens = rest;
            negated(alloc, cursor, depth, *at)
        }
        _ => Err(Fault::Wrong),
    }
}

/// What an expression goes on with.
#[derive(Clone, Copy)]
enum Next {
    /// An operator, at this place.
    Operator(BinSign, u32),
    /// `?`, at this place.
    Question(u32),
    Nothing,
}

/// The operator that a sign is, if any.
fn operator(sign: Sign) -> Option<BinSign>
    ensures { result ≡ spec.operator (sign_seen sign) }
{
    match sign {
        Sign::Or => Some(BinSign::Or),
        Sign::Xor => Some(BinSign::Xor),
        Sign::And => Some(BinSign::And),
        Sign::Equal => Some(BinSign::Equal),
        Sign::Less => Some(BinSign::Less),
        Sign::Plus => Some(BinSign::Plus),
        Sign::Minus => Some(BinSign::Minus),
        _ => None,
    }
}

/// What the next token makes of an expression before it.
fn peek(tokens: &[Placed]) -> Next
    ensures { IsNext result (seen tokens.now) }
{
    let [Placed { at, token }, ..] = tokens else {
        return Next::Nothing;
    };
    let Token::Mark(sign) = token else {
        return Next::Nothing;
    };
    goes_by(*sign, *at)
}

/// What a sign at a place makes of an expression before it.
fn goes_by(sign: Sign, at: u32) -> Next
    ensures { (rest : List lexeme.Placed) → IsNext result (record { at = at; lexeme = lexeme.Mark (sign_seen sign) } ∷ rest) }
{
    match sign {
        Sign::Question => Next::Question(at),
        _ => match operator(sign) {
            Some(op) => Next::Operator(op, at),
            None => Next::Nothing,
        },
    }
}

/// Takes `,` or `}` behind a part, and answers whether another part follows.
fn separator(cursor: &mut Cursor<'_>) -> Result<bool, Fault>
    ensures { Answers (λ b. b) (separates (seen cursor.old.tokens.now)) result (seen cursor.new.tokens.now) }
{
    let tokens = cursor.tokens;
    match tokens {
        [
            Placed {
                token: Token::Mark(Sign::Comma),
                ..
            },
            rest @ ..,
        ] => {
            cursor.tokens = rest;
            Ok(true)
        }
        [
            Placed {
                token: Token::Mark(Sign::CloseBrace),
                ..
            },
            rest @ ..,
        ] => {
            cursor.tokens = rest;
            Ok(false)
        }
        _ => Err(Fault::Wrong),
    }
}

/// Some expressions and the depth of the deepest.
#[derive(Drop)]
struct Parts {
    items: Items<Expr>,
    deepest: u32,
}

/// The parts of a join, from the first on, and `}`.
#[cycle(expr)]
#[tactic(auto, using(crate::proofs::Loop::loops))]
fn all_parts(alloc: Global, cursor: &mut Cursor<'_>, depth: u32) -> Result<Parts, Fault>
    requires { depth < 64 }
    ensures read { Answers (λ p. p.items) (parts_from (spec.parse depth) (length cursor.old.tokens.now) [] (seen cursor.old.tokens.now)) result (seen cursor.new.tokens.now) }
    ensures depth { IfOk result (λ p. (p.deepest ≡ deepest_of p.items) × (p.deepest ≤ depth)) }
{
    let mut items = Items::new(alloc);
    let mut deepest = 0;
    for _turn in 0..cursor.tokens.len() {
        let part = parse(alloc, cursor, depth, 0)?;
        deepest = part.depth.max(deepest);
        items.push(part.expr)?;
        if !separator(cursor)? {
            return Ok(Parts { items, deepest });
        }
    }
    Err(Fault::Wrong)
}

/// Parts in braces, behind `{`.
#[cycle(expr)]
#[tactic(auto, using(verilog_tree::proofs::Depths::depths, crate::proofs::Loop::loops), unfolding(verilog_tree::specs::Parse::joined))]
fn joined(alloc: Global, cursor: &mut Cursor<'_>, depth: u32, at: u32) -> Result<Found, Fault>
    requires { depth < 64 }
    ensures read { Answers (λ f. f.expr) (spec.joined (spec.parse depth) at (seen cursor.old.tokens.now)) result (seen cursor.new.tokens.now) }
    ensures depth { HasDepth (depth + 1) result }
{
    let all = all_parts(alloc, cursor, depth)?;
    Ok(Found {
        depth: all.deepest + 1,
        expr: Expr::Join {
            at,
            parts: all.items,
        },
    })
}

/// Goes on from an operand with operators of the level and above.
#[cycle(expr)]
fn goes_on(
    alloc: Global,
    cursor: &mut Cursor<'_>,
    depth: u32,
    level: u8,
    mut left: Found,
) -> Result<Found, Fault>
    requires depth { depth < 64 }
    requires left { (left.depth ≡ depth_of left.expr) × (left.depth ≤ depth + 1) }
    ensures read { Answers (λ f. f.expr) (spec.goes_on (spec.parse depth) depth level (depth + 1) left.expr (seen cursor.old.tokens.now)) result (seen cursor.new.tokens.now) }
    ensures depth { HasDepth (depth + 1) result }
{
    for _turn in 0..depth + 1 {
        match peek(cursor.tokens) {
            Next::Operator(op, sign_at) if level <= level_of(op) => {
                if left.depth > depth {
                    return Err(Fault::Deep);
                }
                cursor.advance();
                left = operation(alloc, cursor, depth, op, sign_at, left)?;
            }
            Next::Question(at) if level == 0 => {
                if left.depth > depth {
                    return Err(Fault::Deep);
                }
                cursor.advance();
                return choice(alloc, cursor, depth, left, at);
            }
            _ => return Ok(left),
        }
    }
    Err(Fault::Deep)
}

/// The right operand of an operator, behind it.
#[cycle(expr)]
#[tactic(auto, using(verilog_tree::proofs::Depths::depths), unfolding(crate::specs::Expressions::operand))]
fn operation(
    alloc: Global,
    cursor: &mut Cursor<'_>,
    depth: u32,
    op: BinSign,
    sign_at: u32,
    left: Found,
) -> Result<Found, Fault>
    requires depth { depth < 64 }
    requires left { (left.depth ≡ depth_of left.expr) × (left.depth ≤ depth) }
    ensures read { Answers (λ f. f.expr) (operand depth op sign_at left.expr (seen cursor.old.tokens.now)) result (seen cursor.new.tokens.now) }
    ensures depth { HasDepth (depth + 1) result }
{
    let right = parse(alloc, cursor, depth, level_of(op) + 1)?;
    Ok(Found {
        depth: left.depth.max(right.depth) + 1,
        expr: Expr::Binary {
            sign: op,
            sign_at,
            left: Boxed::new(alloc, left.expr)?,
            right: Boxed::new(alloc, right.expr)?,
        },
    })
}

/// An expression of this level or above, no deeper than this.
#[cycle(expr)]
#[tactic(auto, using(crate::proofs::Loop::loops), unfolding(verilog_tree::specs::Parse::parse))]
pub fn parse(alloc: Global, cursor: &mut Cursor<'_>, depth: u32, level: u8) -> Result<Found, Fault>
    requires { depth ≤ 64 }
    ensures read { Answers (λ f. f.expr) (spec.parse depth level (seen cursor.old.tokens.now)) result (seen cursor.new.tokens.now) }
    ensures depth { HasDepth depth result }
{
    if depth == 0 {
        return Err(Fault::Deep);
    }
    let first = start(alloc, cursor, depth - 1, level)?;
    goes_on(alloc, cursor, depth - 1, level, first)
}
