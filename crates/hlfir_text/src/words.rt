//! The fixed words of ops.

ghost use Rattle.std.specs.Prelude.{◌≡◌};
ghost use Rattle.hlfir_text.specs.WordText as words;
ghost use Rattle.hlfir_text.specs.OpText as ops;

use hlfir_ops::{BoundWord, Reduction, ValueBinary, ValueUnary, What};

fn unary_word(op: ValueUnary) -> &'static str
    ensures { result.now ≡ words.unary_word op }
{
    match op {
        ValueUnary::Neg => "hlfir.neg",
        ValueUnary::Abs => "hlfir.abs",
        ValueUnary::Not => "hlfir.not",
    }
}

fn binary_word(op: ValueBinary) -> &'static str
    ensures { result.now ≡ words.binary_word op }
{
    match op {
        ValueBinary::Add => "arith.addi",
        ValueBinary::Sub => "arith.subi",
        ValueBinary::Mul => "arith.muli",
        ValueBinary::Div => "arith.divsi",
        ValueBinary::Min => "arith.minsi",
        ValueBinary::Max => "arith.maxsi",
        ValueBinary::Pow => "hlfir.pow",
        ValueBinary::Mod => "hlfir.mod",
        ValueBinary::Modulo => "hlfir.modulo",
        ValueBinary::Eq => "arith.cmpi eq",
        ValueBinary::Ne => "arith.cmpi ne",
        ValueBinary::Lt => "arith.cmpi lt",
        ValueBinary::Le => "arith.cmpi le",
        ValueBinary::Gt => "arith.cmpi gt",
        ValueBinary::Ge => "arith.cmpi ge",
        ValueBinary::And => "arith.andi",
        ValueBinary::Or => "arith.ori",
        ValueBinary::Eqv => "hlfir.eqv",
        ValueBinary::Neqv => "hlfir.neqv",
    }
}

fn bound_word(word: BoundWord) -> &'static str
    ensures { result.now ≡ words.bound_word word }
{
    match word {
        BoundWord::Lower => "hlfir.lower",
        BoundWord::Upper => "hlfir.upper",
        BoundWord::Lbound => "hlfir.lbound",
        BoundWord::Ubound => "hlfir.ubound",
        BoundWord::Extent => "hlfir.extent",
    }
}

fn reduction_word(reduction: Reduction) -> &'static str
    ensures { result.now ≡ words.reduction_word reduction }
{
    match reduction {
        Reduction::Sum => "hlfir.sum",
        Reduction::Product => "hlfir.product",
        Reduction::Minval => "hlfir.minval",
        Reduction::Maxval => "hlfir.maxval",
        Reduction::Count => "hlfir.count",
        Reduction::Any => "hlfir.any",
        Reduction::All => "hlfir.all",
    }
}

/// The word of an op. The line of an ELSEWHERE begins by closing the block before it.
pub fn word(what: &What) -> &'static str
    ensures { result.now ≡ ops.word what.now }
{
    match what {
        What::Declare(_) => "hlfir.declare",
        What::Assign { .. } => "hlfir.region_assign",
        What::Masked => "hlfir.where",
        What::Elsewhere => "} elsewhere",
        What::Forall(_) => "hlfir.forall",
        What::ForallMask => "hlfir.forall_mask",
        What::Workshare => "omp.workshare",
        What::DoLoop => "fir.do_loop",
        What::Allocmem { .. } => "fir.allocmem",
        What::Freemem { .. } => "fir.freemem",
        What::Read { .. } => "ws.read",
        What::Yield => "hlfir.yield",
        What::YieldElement => "hlfir.yield_element",
        What::Constant(_) => "arith.constant",
        What::Unary(op) => unary_word(*op),
        What::Binary(op) => binary_word(*op),
        What::Select => "arith.select",
        What::Load => "hlfir.load",
        What::Boxed => "hlfir.box",
        What::Bound { word, .. } => bound_word(*word),
        What::Size => "hlfir.size",
        What::Allocated => "hlfir.allocated",
        What::Designate(_) => "hlfir.designate",
        What::Vector => "hlfir.vector",
        What::AsExpr => "hlfir.as_expr",
        What::Elemental => "hlfir.elemental",
        What::Apply => "hlfir.apply",
        What::Reduce(reduction) => reduction_word(*reduction),
    }
}

/// What stands after the line of an op.
pub fn mark(what: &What) -> &'static str
    ensures { result.now ≡ ops.mark what.now }
{
    match what {
        What::Assign { realloc } => { if *realloc { " realloc" } else { "" } }
        What::Allocmem { also } | What::Freemem { also } | What::Read { also } => {
            if *also { " also" } else { "" }
        }
        _ => "",
    }
}
