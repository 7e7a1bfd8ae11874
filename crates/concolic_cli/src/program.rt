//! From the bytes of a source to its checked program.

ghost use Rattle.std.specs.Prelude.{◌≡◌, ℕ, ◌^◌, ◌<◌, ◌≤◌, ◌+◌, Ok, IfOk, IfErr, length, List, take, count_by};
ghost use Rattle.c_lex.specs.Faults.{Fails};
ghost use Rattle.c_parse.specs.Places.{Placed};
ghost use Rattle.c_types.specs.Refused.{IsTypeFault};
ghost use Rattle.cc_model.specs.Lexical.{tokens_of, line_at, is_newline};
ghost use Rattle.cc_model.specs.Reads.{Accepts};
ghost use Rattle.cc_model.specs.Source.{text_at, place_line};
ghost use Rattle.concolic_cli.specs.Programs.{ReadsAs, IsNoProgram};
ghost use Rattle.cc_model.specs.declared.trees.Program.{Program};

use crate::refusal::{Refusal, Wrong};
use c_lex::{LexFault, lex};
use c_parse::{ParseFault, parse};
use c_types::{TypeFault, check};
use cc_model::{Checked, Token};
use std::alloc::Global;

/// The bytes before an offset.
fn before(source: &[u8], offset: u32) -> &[u8]
    ensures { result.now ≡ take offset source.now }
{
    let end = offset as usize;
    if end < source.len() {
        &source[..end]
    } else {
        source
    }
}

/// How many newlines there are.
#[tactic(auto, unfolding(cc_model::specs::Lexical::is_newline))]
fn newlines(bytes: &[u8]) -> usize
    ensures count { result ≡ count_by is_newline bytes.now }
    ensures bound { result ≤ length bytes.now }
{
    bytes.iter().filter(|b| **b == 10).count()
}

/// The line of an offset in a source, from 1.
#[tactic(auto, unfolding(cc_model::specs::Lexical::line_at))]
fn line_at(source: &[u8], offset: u32) -> u32
    requires { length source.now ≤ 1048576 }
    ensures { result ≡ line_at source.now offset }
{
    1 + newlines(before(source, offset)) as u32
}

/// What is wrong with a source that the lexer refuses.
fn refusal_of(source: &[u8], fault: LexFault) -> Refusal
    requires { length source.now ≤ 1048576 }
    ensures { (entry : List ℕ) → Fails fault (tokens_of source.now) → IsNoProgram source.now entry result }
{
    match fault {
        LexFault::BadByte(at) => Refusal::Source(line_at(source, at), Wrong::BadByte),
        LexFault::BadNumber(at) => Refusal::Source(line_at(source, at), Wrong::BadNumber),
        LexFault::OpenComment(at) => Refusal::Source(line_at(source, at), Wrong::OpenComment),
        LexFault::BadDirective(at) => Refusal::Source(line_at(source, at), Wrong::BadDirective),
        LexFault::NoMemory => Refusal::NoMemory,
    }
}

/// The tokens of a source, and the program that they are, checked.
#[derive(Drop)]
pub struct Source {
    pub tokens: Vec<Token>,
    pub checked: Checked,
}

/// The line of a token, or of the source's end where there is no such token.
fn place_line(source: &[u8], tokens: &[Token], at: u32) -> u32
    requires { length source.now ≤ 1048576 }
    ensures { result ≡ place_line source.now tokens.now at }
{
    match tokens.get(at as usize) {
        Some(token) => token.line,
        None => line_at(source, source.len() as u32),
    }
}

/// What is wrong with tokens that the parser refuses.
fn refusal_at(source: &[u8], tokens: &[Token], fault: ParseFault) -> Refusal
    requires short { length source.now ≤ 1048576 }
    requires lexed { tokens_of source.now ≡ Ok tokens.now }
    ensures { (entry : List ℕ) → ((tree : Program) → Accepts tokens.now tree → fault ≡ ParseFault.NoMemory)
        → Placed tokens.now fault → IsNoProgram source.now entry result }
{
    match fault {
        ParseFault::Syntax(at) => Refusal::Source(place_line(source, tokens, at), Wrong::Syntax),
        ParseFault::TooDeep(at) => Refusal::Source(place_line(source, tokens, at), Wrong::TooDeep),
        ParseFault::NoMemory => Refusal::NoMemory,
    }
}

/// What is wrong with a program that the checker refuses.
fn refusal_in(source: &[u8], tokens: &[Token], fault: TypeFault) -> Refusal
    requires short { length source.now ≤ 1048576 }
    requires lexed { tokens_of source.now ≡ Ok tokens.now }
    ensures { (tree : Program) (entry : List ℕ) → Accepts tokens.now tree
        → IsTypeFault (text_at source.now tokens.now) tree.items entry fault
        → IsNoProgram source.now entry result }
{
    match fault {
        TypeFault::Unknown(at) => {
            Refusal::Source(place_line(source, tokens, at), Wrong::UnknownName)
        }
        TypeFault::Twice(at) => {
            Refusal::Source(place_line(source, tokens, at), Wrong::DeclaredTwice)
        }
        TypeFault::Mismatch(at) => Refusal::Source(place_line(source, tokens, at), Wrong::Mismatch),
        TypeFault::TooLarge(at) => Refusal::Source(place_line(source, tokens, at), Wrong::TooLarge),
        TypeFault::NoEntry => Refusal::NoEntry,
        TypeFault::NoMemory => Refusal::NoMemory,
    }
}

/// Reads a source, and checks its program, to test the function with the name `entry`.
pub fn read_program(alloc: Global, source: &[u8], entry: &str) -> Result<Source, Refusal>
    requires { length source.now ≤ 1048576 }
    ensures read { IfOk result (λ s. ReadsAs source.now entry.now s.tokens.items s.checked) }
    ensures source_refused { IfErr result (λ e. IsNoProgram source.now entry.now e) }
{
    let tokens = match lex(alloc, source) {
        Ok(tokens) => tokens,
        Err(fault) => return Err(refusal_of(source, fault)),
    };
    let program = match parse(alloc, &tokens) {
        Ok(program) => program,
        Err(fault) => return Err(refusal_at(source, &tokens, fault)),
    };
    let checked = match check(alloc, source, &tokens, program, entry) {
        Ok(checked) => checked,
        Err(fault) => return Err(refusal_in(source, &tokens, fault)),
    };
    Ok(Source { tokens, checked })
}
