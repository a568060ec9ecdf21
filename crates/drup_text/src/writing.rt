// Whole certificates, as they are written.
ghost use Rattle.std.specs.Prelude.{◌≡◌, ◌⊎◌, ◌≤◌, ◌++◌, ◌∷◌, [], true, Some, length};
ghost use Rattle.std.specs.Fmt.{signed_decimal};
ghost use Rattle.graph_core.specs.Text.{newline, space};
ghost use Rattle.mv_desk.specs.Calls.{Writes};
ghost use Rattle.mv_desk.specs.declared.slot.Slot.TheVariants.{Clauses};
ghost use Rattle.mv_text.specs.Puts.{Puts};
ghost use Rattle.drup_text.specs.ClauseTexts.{carry_text};
ghost use Rattle.drup_text.specs.Headers.{second_line, third_line, version_line};
ghost use Rattle.drup_text.specs.SameFiles.{same_text};
ghost use Rattle.drup_text.specs.WrittenTexts.{any_file_text, beside_text, block_head_text, blocks_header_text, blocks_text, clause_line_text, clause_lines_text, clause_text, count_text, cut_text, first_cut, header_text, literal_sign, literals_text, output_lines_text, outputs_text, pairs_text, two_text};

use crate::head::Header;
use clause_core::{Clause, Line};
use graph_core::Lit;
use mv_desk::{Desk, Slot, WriteFault};
use mv_text::Output;
use ripple_graft::{Beside, Block, Cut};

/// Appends a certificate to the slot `Clauses`: a header, and lines. In version 1 there is one block at most, and
/// only its cut is written. After an error a front part was written.
pub fn write_clauses<D: Desk>(
    desk: &mut D,
    header: &Header,
    lines: &[Line],
) -> Result<(), WriteFault>
    requires open { (D.seen desk.old).writes Clauses ≡ true }
    requires one { header.now.version ≡ 2 ⊎ (length header.now.blocks ≤ 1) }
    ensures { Writes Clauses (any_file_text header.now lines.now)
        (D.seen desk.old) (D.seen desk.new) result }
{
    let mut output = Output::new(Slot::Clauses);
    put_header(&mut output, desk, header);
    put_lines(&mut output, desk, lines);
    output.flush(desk)
}

/// Appends the certificate of two graphs to the slot `Clauses`: its first line, and lines. After an error a front part
/// was written.
pub fn write_same<D: Desk>(desk: &mut D, lines: &[Line]) -> Result<(), WriteFault>
    requires { (D.seen desk.old).writes Clauses ≡ true }
    ensures { Writes Clauses (same_text lines.now) (D.seen desk.old) (D.seen desk.new) result }
{
    let mut output = Output::new(Slot::Clauses);
    output.put(desk, b"same 1\n");
    put_lines(&mut output, desk, lines);
    output.flush(desk)
}

// The lines of a header.
fn put_header<D: Desk>(output: &mut Output, desk: &mut D, header: &Header)
    requires { (D.seen desk.old).writes output.old.slot ≡ true }
    ensures open { (D.seen desk.new).writes output.new.slot ≡ true }
    ensures puts { Puts (header_text header.now)
        output.old output.new (D.seen desk.old) (D.seen desk.new) }
{
    if header.version == 3 {
        put_beside(output, desk, &header.beside);
    } else {
        put_any_blocks(output, desk, header);
    }
}

// The lines of a header without what stands beside.
fn put_any_blocks<D: Desk>(output: &mut Output, desk: &mut D, header: &Header)
    requires { (D.seen desk.old).writes output.old.slot ≡ true }
    ensures open { (D.seen desk.new).writes output.new.slot ≡ true }
    ensures puts { Puts (blocks_header_text header.now)
        output.old output.new (D.seen desk.old) (D.seen desk.new) }
{
    let blocks = header.blocks.as_slice();
    if header.version == 2 {
        put_count(output, desk, blocks);
    } else {
        put_first(output, desk, blocks);
    }
}

// The header of version 3: gates, and outputs.
fn put_beside<D: Desk>(output: &mut Output, desk: &mut D, beside: &Beside)
    requires { (D.seen desk.old).writes output.old.slot ≡ true }
    ensures open { (D.seen desk.new).writes output.new.slot ≡ true }
    ensures puts { Puts (third_line ++ beside_text beside.now)
        output.old output.new (D.seen desk.old) (D.seen desk.new) }
{
    let gates = beside.gates.as_slice();
    let outputs = beside.outputs.as_slice();
    output.put(desk, b"joined 3\ngates ");
    output.put_number(desk, gates.len() as u128);
    output.put(desk, b"\n");
    put_pairs(output, desk, gates);
    put_outputs(output, desk, outputs);
}

// The number of outputs, and each in a line.
fn put_outputs<D: Desk>(output: &mut Output, desk: &mut D, outputs: &[(u32, Lit)])
    requires { (D.seen desk.old).writes output.old.slot ≡ true }
    ensures open { (D.seen desk.new).writes output.new.slot ≡ true }
    ensures puts { Puts (outputs_text outputs.now)
        output.old output.new (D.seen desk.old) (D.seen desk.new) }
{
    output.put(desk, b"replace ");
    output.put_number(desk, outputs.len() as u128);
    output.put(desk, b"\n");
    put_output_lines(output, desk, outputs);
}

// Outputs, each in a line.
fn put_output_lines<D: Desk>(output: &mut Output, desk: &mut D, outputs: &[(u32, Lit)])
    requires { (D.seen desk.old).writes output.old.slot ≡ true }
    ensures open { (D.seen desk.new).writes output.new.slot ≡ true }
    ensures puts { Puts (output_lines_text outputs.now)
        output.old output.new (D.seen desk.old) (D.seen desk.new) }
{
    for item in outputs {
        put_two(output, desk, u128::from(item.0), u128::from(item.1.0));
    }
}

// The header of version 1: the cut of the first block, or that there is none.
fn put_first<D: Desk>(output: &mut Output, desk: &mut D, blocks: &[Block])
    requires { (D.seen desk.old).writes output.old.slot ≡ true }
    ensures open { (D.seen desk.new).writes output.new.slot ≡ true }
    ensures puts { Puts (version_line ++ cut_text (first_cut blocks.now))
        output.old output.new (D.seen desk.old) (D.seen desk.new) }
{
    output.put(desk, b"joined 1\n");
    if blocks.is_empty() {
        output.put(desk, b"none\n");
    } else {
        put_cut(output, desk, &blocks[0].cut);
    }
}

// The header of version 2: the number of blocks, and the blocks.
fn put_count<D: Desk>(output: &mut Output, desk: &mut D, blocks: &[Block])
    requires { (D.seen desk.old).writes output.old.slot ≡ true }
    ensures open { (D.seen desk.new).writes output.new.slot ≡ true }
    ensures puts { Puts (second_line ++ count_text blocks.now)
        output.old output.new (D.seen desk.old) (D.seen desk.new) }
{
    output.put(desk, b"joined 2\ncuts ");
    output.put_number(desk, blocks.len() as u128);
    output.put(desk, b"\n");
    put_blocks(output, desk, blocks);
}

// Blocks, each with its line and those of its pairs.
fn put_blocks<D: Desk>(output: &mut Output, desk: &mut D, blocks: &[Block])
    requires { (D.seen desk.old).writes output.old.slot ≡ true }
    ensures open { (D.seen desk.new).writes output.new.slot ≡ true }
    ensures puts { Puts (blocks_text blocks.now)
        output.old output.new (D.seen desk.old) (D.seen desk.new) }
{
    for block in blocks {
        put_head(output, desk, block);
        put_pairs(output, desk, block.cut.pairs.as_slice());
    }
}

// The line of a block.
fn put_head<D: Desk>(output: &mut Output, desk: &mut D, block: &Block)
    requires { (D.seen desk.old).writes output.old.slot ≡ true }
    ensures open { (D.seen desk.new).writes output.new.slot ≡ true }
    ensures puts { Puts (block_head_text block.now ++ newline ∷ [])
        output.old output.new (D.seen desk.old) (D.seen desk.new) }
{
    output.put(desk, b"replace ");
    output.put_number(desk, u128::from(block.cut.lo));
    output.put(desk, b" ");
    output.put_number(desk, block.cut.pairs.as_slice().len() as u128);
    output.put(desk, carry(block.carry));
    output.put(desk, b"\n");
}

// What stands after the numbers of a block whose last carry replaces a column too.
fn carry(carry: bool) -> &'static [u8]
    ensures text { result.now ≡ carry_text carry }
    ensures few { length result.now ≤ 6 }
{
    if carry { b" carry" } else { b"" }
}

// The line of a cut, and those of its pairs.
fn put_cut<D: Desk>(output: &mut Output, desk: &mut D, cut: &Cut)
    requires { (D.seen desk.old).writes output.old.slot ≡ true }
    ensures open { (D.seen desk.new).writes output.new.slot ≡ true }
    ensures puts { Puts (cut_text (Some cut.now))
        output.old output.new (D.seen desk.old) (D.seen desk.new) }
{
    let pairs = cut.pairs.as_slice();
    output.put(desk, b"replace ");
    put_two(output, desk, u128::from(cut.lo), pairs.len() as u128);
    put_pairs(output, desk, pairs);
}

// Pairs, each in a line.
fn put_pairs<D: Desk>(output: &mut Output, desk: &mut D, pairs: &[(Lit, Lit)])
    requires { (D.seen desk.old).writes output.old.slot ≡ true }
    ensures open { (D.seen desk.new).writes output.new.slot ≡ true }
    ensures puts { Puts (pairs_text pairs.now)
        output.old output.new (D.seen desk.old) (D.seen desk.new) }
{
    for pair in pairs {
        put_two(output, desk, u128::from(pair.0.0), u128::from(pair.1.0));
    }
}

// Two numbers with a space between them, and a line feed.
fn put_two<D: Desk>(output: &mut Output, desk: &mut D, one: u128, two: u128)
    requires { (D.seen desk.old).writes output.old.slot ≡ true }
    ensures open { (D.seen desk.new).writes output.new.slot ≡ true }
    ensures puts { Puts (two_text one two ++ newline ∷ [])
        output.old output.new (D.seen desk.old) (D.seen desk.new) }
{
    output.put_number(desk, one);
    output.put(desk, b" ");
    output.put_number(desk, two);
    output.put(desk, b"\n");
}

// Lines, each with its line feed.
fn put_lines<D: Desk>(output: &mut Output, desk: &mut D, lines: &[Line])
    requires { (D.seen desk.old).writes output.old.slot ≡ true }
    ensures open { (D.seen desk.new).writes output.new.slot ≡ true }
    ensures puts { Puts (clause_lines_text lines.now)
        output.old output.new (D.seen desk.old) (D.seen desk.new) }
{
    for line in lines {
        put_line(output, desk, line);
    }
}

// A line and its line feed.
fn put_line<D: Desk>(output: &mut Output, desk: &mut D, line: &Line)
    requires { (D.seen desk.old).writes output.old.slot ≡ true }
    ensures open { (D.seen desk.new).writes output.new.slot ≡ true }
    ensures puts { Puts (clause_line_text line.now ++ newline ∷ [])
        output.old output.new (D.seen desk.old) (D.seen desk.new) }
{
    match line {
        Line::Add(clause) => put_clause(output, desk, clause),
        Line::Delete(clause) => {
            output.put(desk, b"d ");
            put_clause(output, desk, clause);
        }
    }
}

// A clause and a line feed.
fn put_clause<D: Desk>(output: &mut Output, desk: &mut D, clause: &Clause)
    requires { (D.seen desk.old).writes output.old.slot ≡ true }
    ensures open { (D.seen desk.new).writes output.new.slot ≡ true }
    ensures puts { Puts (clause_text clause.now ++ newline ∷ [])
        output.old output.new (D.seen desk.old) (D.seen desk.new) }
{
    put_literals(output, desk, clause.lits());
    output.put(desk, b"0\n");
}

// Literals, each with a space after it.
fn put_literals<D: Desk>(output: &mut Output, desk: &mut D, literals: &[i32])
    requires { (D.seen desk.old).writes output.old.slot ≡ true }
    ensures open { (D.seen desk.new).writes output.new.slot ≡ true }
    ensures puts { Puts (literals_text literals.now [])
        output.old output.new (D.seen desk.old) (D.seen desk.new) }
{
    for &literal in literals {
        put_literal(output, desk, literal);
    }
}

// A literal and a space.
fn put_literal<D: Desk>(output: &mut Output, desk: &mut D, literal: i32)
    requires { (D.seen desk.old).writes output.old.slot ≡ true }
    ensures open { (D.seen desk.new).writes output.new.slot ≡ true }
    ensures puts { Puts (signed_decimal literal ++ space ∷ [])
        output.old output.new (D.seen desk.old) (D.seen desk.new) }
{
    output.put(desk, sign(literal));
    output.put_number(desk, u128::from(literal.unsigned_abs()));
    output.put(desk, b" ");
}

// What stands before a literal's variable.
fn sign(literal: i32) -> &'static [u8]
    ensures text { result.now ≡ literal_sign literal }
    ensures few { length result.now ≤ 1 }
{
    if literal < 0 { b"-" } else { b"" }
}
