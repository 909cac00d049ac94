// The tree of a task as the file has it: reading numbers, names and nodes at a position.
#![tactic(auto)]

ghost use Rattle.std.specs.Prelude.{◌≡◌, ◌≤◌, List, get_or};
ghost use Rattle.task.specs.Decode.{Decoder, refusal, raw, number, name, text, coded, flags, bin_ops, bin_rels, thy_funcs, quantifiers};
ghost use Rattle.task.specs.Fault.{lower};
ghost use Rattle.task.specs.Node.{read_of, halves_of, text_of, SortForm, SortAt, ExprForm, ExprAt, PredForm, PredAt, ConstraintAt};
ghost use Rattle.task.specs.Refusals.{number_of};

// The theory functions, in the source's order of declaration; a function's place is its code.
#[derive(Clone, Copy)]
pub enum ThyFunc {
    StrLen,
    StrConcat,
    StrPrefixOf,
    StrSuffixOf,
    StrContains,
    BvZeroExtend(u8),
    BvSignExtend(u8),
    IntToBv8,
    Bv8ToInt,
    IntToBv32,
    Bv32ToInt,
    IntToBv64,
    Bv64ToInt,
    IntToBv128,
    Bv128ToInt,
    BvUle,
    BvSle,
    BvUge,
    BvSge,
    BvUdiv,
    BvSdiv,
    BvSrem,
    BvUrem,
    BvLshr,
    BvAshr,
    BvAnd,
    BvOr,
    BvXor,
    BvNot,
    BvAdd,
    BvNeg,
    BvSub,
    BvMul,
    BvShl,
    BvUgt,
    BvSgt,
    BvUlt,
    BvSlt,
    SetEmpty,
    SetSng,
    SetCup,
    SetCap,
    SetDif,
    SetSub,
    SetMem,
    MapDefault,
    MapSelect,
    MapStore,
}

#[derive(Clone, Copy)]
pub enum BinOp {
    Add,
    Sub,
    Mul,
    Div,
    Mod,
}

#[derive(Clone, Copy)]
pub enum BinRel {
    Eq,
    Ne,
    Gt,
    Ge,
    Lt,
    Le,
}

#[derive(Clone, Copy)]
pub enum Quantifier {
    Exists,
    Forall,
}

// What is refused of a task that decodes, in the order in which it is judged; `Sound` is no fault.
#[derive(Clone, Copy, PartialEq, Eq, PartialOrd, Ord, Debug)]
pub enum Fault {
    Text, // a name is no symbol, or a text has a byte that may not stand there
    NoConstructors, // a datatype has no constructors
    BitVecWidth, // BitVec of something other than BvSize, or BvSize elsewhere
    Unqualified, // SetEmpty or MapDefault that is no head with an output sort
    WKVar, // an expression of the kind that the source does not write
    Arity, // a body has another number of argument names than inputs
    Shadowed, // a ForAll is named like one around it
    Clash, // a ForAll is named like a KVar, constructor, field, constant or function
    Unknown, // a name is not declared
    Arguments, // a KVar has another number of arguments than sorts
    Sound,
}

impl Fault {
    // Of two faults the one that is judged first.
    #[tactic(auto, using(crate::proofs::Faults::min_is_lower))]
    pub fn lower(self, other: Fault) -> Fault
        ensures { result ≡ lower self other }
    {
        self.min(other)
    }
}

// Why a file or a call is refused. The number of each is what callers outside see.
#[derive(Clone, Copy, PartialEq, Eq, Debug)]
pub enum Refusal {
    Trailer = 1,
    Piece = 2,
    Level = 3,
    Text = 4,
    NoConstructors = 5,
    Arity = 6,
    Shadowed = 7,
    Part = 8,
    Room = 9,
    Unknown = 10,
    Arguments = 11,
    BitVecWidth = 12,
    Unqualified = 13,
    WKVar = 14,
    Clash = 15,
}

// The number of a refusal.
impl From<Refusal> for u8 {
    ghost from_gives = { λ refusal n. n ≡ number_of refusal };

    fn from(refusal: Refusal) -> u8 {
        refusal as u8
    }
}

// What stands at a position with the position behind it, or why it is refused. Every function here that answers one is compiled into its callers: an answer
// that is handed back in memory is stored part by part, all parts that the largest node has, and a copy of it waits for these stores.
pub type Read<T> = Result<(T, usize), Refusal>;

// The node of a sort: what stands in front of the sorts in it.
#[derive(Clone, Copy)]
pub enum SortNode<'a> {
    Int,
    Bool,
    Real,
    Str,
    BitVec,
    BvSize(u64),
    Var(u64),
    Func,
    Abs(u64),
    Set(u64),
    Map(u64),
    Data(&'a [u8], u64),
}

// The node of an expression: what stands in front of the expressions in it. A number of 16 bytes is two halves, the low one first.
#[derive(Clone, Copy)]
pub enum ExprNode<'a> {
    Numeral(u64, u64),
    Boolean(bool),
    Real(u64),
    String(&'a [u8]),
    BitVec(u64, u64, u64),
    Var(&'a [u8]),
    WKVar,
    Neg,
    Not,
    BinaryOp(BinOp),
    Atom(BinRel),
    Imp,
    Iff,
    And(u64),
    Or(u64),
    IfThenElse,
    Let(&'a [u8]),
    App(bool),
    ThyFunc(ThyFunc),
    IsCtor(&'a [u8]),
    Quantifier(Quantifier, u64),
}

#[derive(Clone, Copy)]
pub enum PredNode<'a> {
    KVar(&'a [u8], u64),
    Expr,
}

#[derive(Clone, Copy)]
pub enum ConstraintNode {
    Pred,
    Conj(u64),
    ForAll,
}

// What has a code: the byte in front tells which it is.
pub trait Coded: Sized {
    // what is read behind each code; the codes count from 0
    ghost codes: { List (Decoder Self) };

    // What has the code, with what of it stands behind the code.
    fn behind(s: &[u8], at: usize, code: u8) -> Read<Self>
        ensures { get_or codes code (refusal 2) s.now at ≡ read_of result };
}

// The n bytes at a position.
#[tactic(auto, using(crate::proofs::Reading::raw_fits, crate::proofs::Reading::raw_short))]
#[inline(always)]
fn bytes_at(s: &[u8], at: usize, n: usize) -> Read<&[u8]>
    ensures { raw n s.now at ≡ text_of result }
{
    let end = at.checked_add(n).ok_or(Refusal::Piece)?;
    if s.len() < end {
        return Err(Refusal::Piece);
    }
    Ok((&s[at..end], end))
}

// The byte at a position.
#[tactic(auto, using(crate::proofs::Reading::byte_fits, crate::proofs::Reading::byte_short))]
#[inline(always)]
fn byte_at(s: &[u8], at: usize) -> Read<u8>
    ensures { number 1 s.now at ≡ read_of result }
{
    let byte = *s.get(at).ok_or(Refusal::Piece)?;
    Ok((byte, at + 1))
}

// The number in k bytes, the low one first.
#[inline(always)]
pub fn number_at(s: &[u8], at: usize, k: usize) -> Read<u64>
    requires { k ≤ 8 }
    ensures { number k s.now at ≡ read_of result }
{
    let (bytes, end) = bytes_at(s, at, k)?;
    let mut value: u64 = 0;
    for b in bytes.iter().rev() {
        value = value * 256 + u64::from(*b);
    }
    Ok((value, end))
}

// The number in 16 bytes, the low one first.
#[tactic(auto, using(crate::proofs::Numbers::halves, crate::proofs::Numbers::low_short, crate::proofs::Numbers::high_short))]
#[inline(always)]
pub fn halves_at(s: &[u8], at: usize) -> Read<(u64, u64)>
    ensures { number 16 s.now at ≡ halves_of result }
{
    let (lo, p) = number_at(s, at, 8)?;
    let (hi, q) = number_at(s, p, 8)?;
    Ok(((lo, hi), q))
}

// A name.
#[inline(always)]
pub fn read_name(s: &[u8], at: usize) -> Read<&[u8]>
    ensures { name s.now at ≡ text_of result }
{
    let (n, p) = number_at(s, at, 1)?;
    if n == 0 {
        return Err(Refusal::Piece);
    }
    bytes_at(s, p, n as usize)
}

// A text: a comment, or what stands in a string.
#[inline(always)]
pub fn read_text(s: &[u8], at: usize) -> Read<&[u8]>
    ensures { text s.now at ≡ text_of result }
{
    let (n, p) = number_at(s, at, 2)?;
    bytes_at(s, p, n as usize)
}

// What has a code at a position.
#[inline(always)]
pub fn read_coded<T: Coded>(s: &[u8], at: usize) -> Read<T>
    ensures { coded T.codes s.now at ≡ read_of result }
{
    let (code, p) = byte_at(s, at)?;
    T::behind(s, p, code)
}

impl Coded for bool {
    ghost codes = { flags };

    fn behind(_s: &[u8], at: usize, code: u8) -> Read<bool> {
        match code {
            0 => Ok((false, at)),
            1 => Ok((true, at)),
            2..=255 => Err(Refusal::Piece),
        }
    }
}

impl Coded for BinOp {
    ghost codes = { bin_ops };

    #[tactic(auto, unfolding(crate::specs::Decode::bin_ops))]
    fn behind(_s: &[u8], at: usize, code: u8) -> Read<BinOp> {
        match code {
            0 => Ok((BinOp::Add, at)),
            1 => Ok((BinOp::Sub, at)),
            2 => Ok((BinOp::Mul, at)),
            3 => Ok((BinOp::Div, at)),
            4 => Ok((BinOp::Mod, at)),
            5..=255 => Err(Refusal::Piece),
        }
    }
}

impl Coded for BinRel {
    ghost codes = { bin_rels };

    #[tactic(auto, unfolding(crate::specs::Decode::bin_rels))]
    fn behind(_s: &[u8], at: usize, code: u8) -> Read<BinRel> {
        match code {
            0 => Ok((BinRel::Eq, at)),
            1 => Ok((BinRel::Ne, at)),
            2 => Ok((BinRel::Gt, at)),
            3 => Ok((BinRel::Ge, at)),
            4 => Ok((BinRel::Lt, at)),
            5 => Ok((BinRel::Le, at)),
            6..=255 => Err(Refusal::Piece),
        }
    }
}

impl Coded for ThyFunc {
    ghost codes = { thy_funcs };

    #[tactic(auto, unfolding(crate::specs::Decode::thy_funcs))]
    fn behind(s: &[u8], at: usize, code: u8) -> Read<ThyFunc> {
        match code {
            0 => Ok((ThyFunc::StrLen, at)),
            1 => Ok((ThyFunc::StrConcat, at)),
            2 => Ok((ThyFunc::StrPrefixOf, at)),
            3 => Ok((ThyFunc::StrSuffixOf, at)),
            4 => Ok((ThyFunc::StrContains, at)),
            5 => byte_at(s, at).map(|(w, p)| (ThyFunc::BvZeroExtend(w), p)),
            6 => byte_at(s, at).map(|(w, p)| (ThyFunc::BvSignExtend(w), p)),
            7 => Ok((ThyFunc::IntToBv8, at)),
            8 => Ok((ThyFunc::Bv8ToInt, at)),
            9 => Ok((ThyFunc::IntToBv32, at)),
            10 => Ok((ThyFunc::Bv32ToInt, at)),
            11 => Ok((ThyFunc::IntToBv64, at)),
            12 => Ok((ThyFunc::Bv64ToInt, at)),
            13 => Ok((ThyFunc::IntToBv128, at)),
            14 => Ok((ThyFunc::Bv128ToInt, at)),
            15 => Ok((ThyFunc::BvUle, at)),
            16 => Ok((ThyFunc::BvSle, at)),
            17 => Ok((ThyFunc::BvUge, at)),
            18 => Ok((ThyFunc::BvSge, at)),
            19 => Ok((ThyFunc::BvUdiv, at)),
            20 => Ok((ThyFunc::BvSdiv, at)),
            21 => Ok((ThyFunc::BvSrem, at)),
            22 => Ok((ThyFunc::BvUrem, at)),
            23 => Ok((ThyFunc::BvLshr, at)),
            24 => Ok((ThyFunc::BvAshr, at)),
            25 => Ok((ThyFunc::BvAnd, at)),
            26 => Ok((ThyFunc::BvOr, at)),
            27 => Ok((ThyFunc::BvXor, at)),
            28 => Ok((ThyFunc::BvNot, at)),
            29 => Ok((ThyFunc::BvAdd, at)),
            30 => Ok((ThyFunc::BvNeg, at)),
            31 => Ok((ThyFunc::BvSub, at)),
            32 => Ok((ThyFunc::BvMul, at)),
            33 => Ok((ThyFunc::BvShl, at)),
            34 => Ok((ThyFunc::BvUgt, at)),
            35 => Ok((ThyFunc::BvSgt, at)),
            36 => Ok((ThyFunc::BvUlt, at)),
            37 => Ok((ThyFunc::BvSlt, at)),
            38 => Ok((ThyFunc::SetEmpty, at)),
            39 => Ok((ThyFunc::SetSng, at)),
            40 => Ok((ThyFunc::SetCup, at)),
            41 => Ok((ThyFunc::SetCap, at)),
            42 => Ok((ThyFunc::SetDif, at)),
            43 => Ok((ThyFunc::SetSub, at)),
            44 => Ok((ThyFunc::SetMem, at)),
            45 => Ok((ThyFunc::MapDefault, at)),
            46 => Ok((ThyFunc::MapSelect, at)),
            47 => Ok((ThyFunc::MapStore, at)),
            48..=255 => Err(Refusal::Piece),
        }
    }
}

// Behind code 11 of a sort: a name and a count.
#[tactic(auto, unfolding(crate::specs::Decode::sort_forms, crate::specs::Node::SortForm, crate::specs::Node::SortAt, crate::specs::Node::sort_of))]
#[inline(always)]
fn data_node(s: &[u8], at: usize) -> Read<SortNode>
    ensures { SortForm 11 s.now at result }
{
    let (x, p) = read_name(s, at)?;
    let (n, q) = number_at(s, p, 2)?;
    Ok((SortNode::Data(x, n), q))
}

// The node of a sort.
#[tactic(auto, unfolding(crate::specs::Decode::sort_forms, crate::specs::Node::SortForm, crate::specs::Node::SortAt, crate::specs::Node::sort_of))]
#[inline(always)]
pub fn read_sort_node(s: &[u8], at: usize) -> Read<SortNode>
    ensures { SortAt s.now at result }
{
    let (code, p) = byte_at(s, at)?;
    match code {
        0 => Ok((SortNode::Int, p)),
        1 => Ok((SortNode::Bool, p)),
        2 => Ok((SortNode::Real, p)),
        3 => Ok((SortNode::Str, p)),
        4 => Ok((SortNode::BitVec, p)),
        5 => number_at(s, p, 4).map(|(n, q)| (SortNode::BvSize(n), q)),
        6 => number_at(s, p, 2).map(|(n, q)| (SortNode::Var(n), q)),
        7 => Ok((SortNode::Func, p)),
        8 => number_at(s, p, 2).map(|(n, q)| (SortNode::Abs(n), q)),
        9 => number_at(s, p, 2).map(|(n, q)| (SortNode::Set(n), q)),
        10 => number_at(s, p, 2).map(|(n, q)| (SortNode::Map(n), q)),
        11 => data_node(s, p),
        12..=255 => Err(Refusal::Piece),
    }
}

impl Coded for Quantifier {
    ghost codes = { quantifiers };

    #[tactic(auto, unfolding(crate::specs::Decode::quantifiers))]
    fn behind(_s: &[u8], at: usize, code: u8) -> Read<Quantifier> {
        match code {
            0 => Ok((Quantifier::Exists, at)),
            1 => Ok((Quantifier::Forall, at)),
            2..=255 => Err(Refusal::Piece),
        }
    }
}

// Behind code 4: 16 bytes and a width.
#[tactic(auto, using(crate::proofs::Behind::number_behind), unfolding(crate::specs::Decode::expr_forms, crate::specs::Node::expr_of))]
#[inline(always)]
fn bit_vec_node(s: &[u8], at: usize) -> Read<ExprNode>
    ensures { ExprForm 4 s.now at result }
{
    let ((lo, hi), p) = halves_at(s, at)?;
    let (w, q) = number_at(s, p, 4)?;
    Ok((ExprNode::BitVec(lo, hi, w), q))
}

// Behind code 20: which quantifier, and a count.
#[tactic(auto, using(crate::proofs::Behind::quantifier_behind, crate::proofs::Behind::number_behind), unfolding(crate::specs::Decode::expr_forms, crate::specs::Node::expr_of))]
#[inline(always)]
fn quantifier_node(s: &[u8], at: usize) -> Read<ExprNode>
    ensures { ExprForm 20 s.now at result }
{
    let (k, p) = read_coded(s, at)?;
    let (n, q) = number_at(s, p, 2)?;
    Ok((ExprNode::Quantifier(k, n), q))
}

// The node of an expression.
#[tactic(auto, using(crate::proofs::Behind::byte_behind, crate::proofs::Behind::number_behind, crate::proofs::Behind::name_behind, crate::proofs::Behind::text_behind, crate::proofs::Behind::flag_behind, crate::proofs::Behind::op_behind, crate::proofs::Behind::rel_behind, crate::proofs::Behind::func_behind), unfolding(crate::specs::Decode::expr_forms, crate::specs::Node::expr_of))]
#[inline(always)]
pub fn read_expr_node(s: &[u8], at: usize) -> Read<ExprNode>
    ensures { ExprAt s.now at result }
{
    let (code, p) = byte_at(s, at)?;
    match code {
        0 => halves_at(s, p).map(|((lo, hi), q)| (ExprNode::Numeral(lo, hi), q)),
        1 => read_coded(s, p).map(|(b, q)| (ExprNode::Boolean(b), q)),
        2 => number_at(s, p, 4).map(|(n, q)| (ExprNode::Real(n), q)),
        3 => read_text(s, p).map(|(x, q)| (ExprNode::String(x), q)),
        4 => bit_vec_node(s, p),
        5 => read_name(s, p).map(|(x, q)| (ExprNode::Var(x), q)),
        6 => Ok((ExprNode::WKVar, p)),
        7 => Ok((ExprNode::Neg, p)),
        8 => Ok((ExprNode::Not, p)),
        9 => read_coded(s, p).map(|(o, q)| (ExprNode::BinaryOp(o), q)),
        10 => read_coded(s, p).map(|(o, q)| (ExprNode::Atom(o), q)),
        11 => Ok((ExprNode::Imp, p)),
        12 => Ok((ExprNode::Iff, p)),
        13 => number_at(s, p, 2).map(|(n, q)| (ExprNode::And(n), q)),
        14 => number_at(s, p, 2).map(|(n, q)| (ExprNode::Or(n), q)),
        15 => Ok((ExprNode::IfThenElse, p)),
        16 => read_name(s, p).map(|(x, q)| (ExprNode::Let(x), q)),
        17 => read_coded(s, p).map(|(b, q)| (ExprNode::App(b), q)),
        18 => read_coded(s, p).map(|(f, q)| (ExprNode::ThyFunc(f), q)),
        19 => read_name(s, p).map(|(x, q)| (ExprNode::IsCtor(x), q)),
        20 => quantifier_node(s, p),
        21..=255 => Err(Refusal::Piece),
    }
}

// Behind code 0 of a predicate: a name and a count.
#[tactic(auto, using(crate::proofs::Behind::name_behind, crate::proofs::Behind::number_behind), unfolding(crate::specs::Node::pred_of))]
#[inline(always)]
fn kvar_node(s: &[u8], at: usize) -> Read<PredNode>
    ensures { PredForm 0 s.now at result }
{
    let (x, p) = read_name(s, at)?;
    let (n, q) = number_at(s, p, 2)?;
    Ok((PredNode::KVar(x, n), q))
}

// The node of a predicate.
#[tactic(auto, using(crate::proofs::Behind::byte_behind), unfolding(crate::specs::Node::pred_of))]
#[inline(always)]
pub fn read_pred_node(s: &[u8], at: usize) -> Read<PredNode>
    ensures { PredAt s.now at result }
{
    let (code, p) = byte_at(s, at)?;
    match code {
        0 => kvar_node(s, p),
        1 => Ok((PredNode::Expr, p)),
        2..=255 => Err(Refusal::Piece),
    }
}

// The node of a constraint.
#[tactic(auto, using(crate::proofs::Behind::byte_behind, crate::proofs::Behind::number_behind), unfolding(crate::specs::Node::constraint_of))]
#[inline(always)]
pub fn read_constraint_node(s: &[u8], at: usize) -> Read<ConstraintNode>
    ensures { ConstraintAt s.now at result }
{
    let (code, p) = byte_at(s, at)?;
    match code {
        0 => Ok((ConstraintNode::Pred, p)),
        1 => number_at(s, p, 2).map(|(n, q)| (ConstraintNode::Conj(n), q)),
        2 => Ok((ConstraintNode::ForAll, p)),
        3..=255 => Err(Refusal::Piece),
    }
}
