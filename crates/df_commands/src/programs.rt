//! The program of a source, if it is accepted.
ghost use Rattle.std.specs.Prelude.{◌≤◌, length, All, IfOk};
ghost use Rattle.df_values.specs.Inputs.{HasExtent};
ghost use Rattle.df_values.specs.declared.inputs.Input.{Input};
ghost use Rattle.df_core.specs.Within.{HaveRanges as CoreRanges};
ghost use Rattle.df_syntax.specs.WellShaped.{HaveRanges};
ghost use Rattle.df_commands.specs.ProgramTexts.{ReadsTokens, ReadsTree, MeetsDemands, ReadsBlocks, ReadsFlat, ReadsFew, ReadsProgram};
ghost use Rattle.df_commands.specs.Ready.{IsFlatOf};
ghost use Rattle.df_commands.specs.Judged.{GivesMeaning};

use crate::laws::{accepted_sources_bind_new_names, accepted_sources_keep_their_demands};
use crate::refusals::{refused, refused_count};
use crate::source_refusals::{refused_check, refused_parse, refused_place, refused_shape};
use crate::stop::Stop;
use df_build_elem::build::census;
use df_core::flat::Flat;
use df_flattened::laws::lowered_programs_are_flat;
use df_grammar::parse;
use df_inline::{InlineAnswer, inline};
use df_lexer::{LexAnswer, lex};
use df_shape::shape;
use df_syntax::piped::Piped;
use df_syntax::program::Program;
use df_syntax::token::Tokens;
use df_types::check;
use std::alloc::Global;

// As many results as can be numbered.
const MOST_RESULTS: usize = 4_294_967_294;

/// A source that is accepted.
#[derive(Drop)]
pub struct Source {
    /// Its tree.
    pub tree: Program,
    /// Its flat program.
    pub flat: Flat,
}

// The tokens of a text.
fn tokens_of(alloc: Global, text: &[u8]) -> Result<Tokens, Stop>
    requires { length text.now ≤ 4294967294 }
    ensures { GivesMeaning (λ tokens. tokens) result (ReadsTokens text.now) }
{
    match lex(alloc, text) {
        Ok(tokens) => Ok(tokens),
        Err(LexAnswer::BadByte(at)) => Err(Stop::Refused(refused_place(alloc, "BadByte", at)?)),
        Err(LexAnswer::LiteralTooLarge(at)) => {
            Err(Stop::Refused(refused_place(alloc, "LiteralTooLarge", at)?))
        }
        Err(LexAnswer::NameTooLong(at)) => {
            Err(Stop::Refused(refused_place(alloc, "NameTooLong", at)?))
        }
        Err(LexAnswer::Memory) => Err(Stop::Memory),
    }
}

// The tree of tokens.
fn tree_of(alloc: Global, tokens: &Tokens) -> Result<Program, Stop>
    ensures { GivesMeaning (λ tree. tree) result (ReadsTree tokens.now) }
{
    match parse(alloc, tokens) {
        Ok(tree) => Ok(tree),
        Err(answer) => Err(Stop::Refused(refused_parse(alloc, &answer)?)),
    }
}

// Tries the demands on names and types.
fn check_tree(alloc: Global, tree: &Program) -> Result<(), Stop>
    ensures { GivesMeaning (λ done. done) result (MeetsDemands tree.now) }
{
    match check(alloc, tree) {
        Ok(()) => Ok(()),
        Err(answer) => Err(Stop::Refused(refused_check(alloc, &answer)?)),
    }
}

// A tree in blocks, if it has the form.
fn blocks_of(alloc: Global, tree: &Program) -> Result<Piped, Stop>
    ensures reads { GivesMeaning (λ piped. piped) result (ReadsBlocks tree.now) }
    ensures ranges { IfOk result (λ piped. HaveRanges piped.blocks) }
    ensures extents { IfOk result (λ piped. All (λ (p : Input). HasExtent p.extent) piped.parameters) }
{
    match shape(alloc, tree) {
        Ok(piped) => Ok(piped),
        Err(answer) => Err(Stop::Refused(refused_shape(alloc, &answer)?)),
    }
}

// The flat program of a program in blocks, if it is small enough.
fn flat_of(alloc: Global, piped: &Piped) -> Result<Flat, Stop>
    ensures { GivesMeaning (λ flat. flat) result (ReadsFlat piped.now) }
{
    match inline(alloc, piped) {
        Ok(flat) => Ok(flat),
        Err(InlineAnswer::TooLarge) => Err(Stop::Refused(refused(alloc, "TooLarge", "")?)),
        Err(InlineAnswer::TooTall) => Err(Stop::Refused(refused(alloc, "TooTall", "")?)),
        Err(InlineAnswer::Memory) => Err(Stop::Memory),
    }
}

// Tries how many cells the skeleton has. More results than can be numbered count as want of memory.
fn count_cells(alloc: Global, flat: &Flat) -> Result<(), Stop>
    requires { CoreRanges flat.now.blocks }
    ensures few { GivesMeaning (λ done. done) result (ReadsFew flat.now) }
    ensures results { IfOk result (λ done. length flat.now.results ≤ 4294967294) }
{
    if flat.results.as_slice().len() > MOST_RESULTS {
        return Err(Stop::Memory);
    }
    let count = census(alloc, flat)?;
    if count > 4096 {
        return Err(Stop::Refused(refused_count(alloc, "TooManySkeletonCells", count)?));
    }
    Ok(())
}

/// The program of a text, if its names and types, its form, its sizes and the number of its cells are right.
pub fn judge_program(alloc: Global, text: &[u8]) -> Result<Source, Stop>
    requires { length text.now ≤ 4294967294 }
    ensures reads { GivesMeaning (λ source. source.tree) result (ReadsProgram text.now) }
    ensures flat { IfOk result (λ source. IsFlatOf source.tree source.flat) }
    ensures results { IfOk result (λ source. length source.flat.results ≤ 4294967294) }
{
    accepted_sources_bind_new_names();
    accepted_sources_keep_their_demands();
    lowered_programs_are_flat();
    let tokens = tokens_of(alloc, text)?;
    let tree = tree_of(alloc, &tokens)?;
    check_tree(alloc, &tree)?;
    let piped = blocks_of(alloc, &tree)?;
    let flat = flat_of(alloc, &piped)?;
    count_cells(alloc, &flat)?;
    Ok(Source { tree, flat })
}
