//! The guarded table of the grammar.
ghost use Rattle.std.specs.Prelude.{◌≡◌};
ghost use Rattle.cr_grammar.specs.Grammar.{rule, rows_of};

use crate::{Action, Alternative, Guard, NonTerm, Symbol, Term};

macro_rules! symbol {
    (t $v:ident) => {
        Symbol::Term(Term::$v)
    };
    (n $v:ident) => {
        Symbol::Non(NonTerm::$v)
    };
    (a $v:ident) => {
        Symbol::Act(Action::$v)
    };
}

macro_rules! alternatives {
    ($($g:ident $(($($w:ident),*))? => [$($k:ident $v:ident)*];)*) => {
        &[$(Alternative { guard: Guard::$g $(($(Term::$w),*))?, body: &[$(symbol!($k $v)),*] }),*]
    };
}

/// The alternatives of a nonterminal, in the order in which their guards are tried (C11 6.5 to 6.9).
#[tactic(auto, unfolding(crate::specs::Grammar::rule))]
pub fn alternatives(n: NonTerm) -> &'static [Alternative]
    ensures { rows_of result.now ≡ rule n }
{
    match n {
        NonTerm::Unit => alternatives![
            First(End) => [];
            Else => [n External n Unit];
        ],
        NonTerm::External => alternatives![
            First(Semicolon) => [t Semicolon];
            First(StaticAssert) => [n Static];
            Else => [a Decl n Specs0 n ExtTail];
        ],
        NonTerm::ExtTail => alternatives![
            First(Semicolon) => [t Semicolon a Bare];
            Else => [n Dtor a Declare n After n ExtNext];
        ],
        NonTerm::ExtNext => alternatives![
            First(LeftBrace) => [a Body t LeftBrace n Items t RightBrace a EndBody];
            Else => [n InitOpt n More t Semicolon];
        ],
        NonTerm::Decl => alternatives![
            First(StaticAssert) => [n Static];
            Else => [a Decl n Specs0 n DeclTail];
        ],
        NonTerm::DeclTail => alternatives![
            First(Semicolon) => [t Semicolon a Bare];
            Else => [n Dtor a Declare n After n InitOpt n More t Semicolon];
        ],
        NonTerm::More => alternatives![
            First(Comma) => [t Comma n AttrOpt n Dtor a Declare n After n InitOpt n More];
            Else => [];
        ],
        NonTerm::After => alternatives![
            First(Asm) => [t Asm t LeftParen t StringLiteral t RightParen n After];
            First(Attribute) => [n Attr n After];
            Else => [];
        ],
        NonTerm::InitOpt => alternatives![
            First(Equals) => [t Equals a InitOf n Init a InitEnd];
            Else => [];
        ],
        NonTerm::Static => alternatives![
            Else => [t StaticAssert t LeftParen n Cond t Comma t StringLiteral t RightParen t Semicolon];
        ],
        NonTerm::Specs0 => alternatives![
            First(Modifier) => [n Mod n Specs0];
            Both(Atomic, LeftParen) => [t Atomic t LeftParen n TypeName t RightParen a Spec n SpecsT];
            First(Atomic) => [t Atomic n Specs0];
            First(Basic) => [t Basic a Spec n SpecsB];
            First(StructOrUnion) => [n Rec n SpecsT];
            First(Enum) => [n Enum n SpecsT];
            First(TypedefName) => [t Identifier a Spec n SpecsT];
        ],
        NonTerm::SpecsB => alternatives![
            First(Modifier) => [n Mod n SpecsB];
            First(Atomic) => [t Atomic n SpecsB];
            First(Basic) => [t Basic a Spec n SpecsB];
            Else => [];
        ],
        NonTerm::SpecsT => alternatives![
            First(Modifier) => [n Mod n SpecsT];
            First(Atomic) => [t Atomic n SpecsT];
            Else => [];
        ],
        NonTerm::AlignArg => alternatives![
            First(Specifier) => [n TypeName];
            Else => [n Cond];
        ],
        NonTerm::Attr => alternatives![
            Else => [t Attribute t LeftParen t LeftParen n Hidden t RightParen t RightParen];
        ],
        NonTerm::AttrOpt => alternatives![
            First(Attribute) => [n Attr n AttrOpt];
            Else => [];
        ],
        NonTerm::Hidden => alternatives![
            First(RightParen) => [];
            First(LeftParen) => [t LeftParen n Hidden t RightParen n Hidden];
            First(NotEnd) => [t NotEnd a Hidden n Hidden];
        ],
        NonTerm::Rec => alternatives![
            Else => [t StructOrUnion n AttrOpt n RecTail];
        ],
        NonTerm::RecTail => alternatives![
            First(LeftBrace) => [a Anon t LeftBrace n Members t RightBrace a EndRec];
            Both(Identifier, LeftBrace) => [t Identifier a TagDef t LeftBrace n Members t RightBrace a EndRec];
            Both(Identifier, Semicolon) => [t Identifier a TagAlone];
            First(Identifier) => [t Identifier a TagUse];
        ],
        NonTerm::Members => alternatives![
            First(RightBrace) => [];
            First(Semicolon) => [t Semicolon n Members];
            First(StaticAssert) => [n Static n Members];
            Else => [a Decl n Specs0 n MemTail n Members];
        ],
        NonTerm::MemTail => alternatives![
            First(Semicolon) => [t Semicolon a Splice];
            Else => [n MemDtor n MemMore t Semicolon];
        ],
        NonTerm::MemMore => alternatives![
            First(Comma) => [t Comma n AttrOpt n MemDtor n MemMore];
            Else => [];
        ],
        NonTerm::MemDtor => alternatives![
            First(Colon) => [t Colon n Cond];
            Else => [n Dtor a Member n BitOpt n AttrOpt];
        ],
        NonTerm::BitOpt => alternatives![
            First(Colon) => [t Colon n Cond];
            Else => [];
        ],
        NonTerm::Enum => alternatives![
            Else => [t Enum n AttrOpt n EnumTail];
        ],
        NonTerm::EnumTail => alternatives![
            First(LeftBrace) => [a Anon t LeftBrace n Enums t RightBrace];
            Both(Identifier, LeftBrace) => [t Identifier a TagDef t LeftBrace n Enums t RightBrace];
            First(Identifier) => [t Identifier a TagUse];
        ],
        NonTerm::Enums => alternatives![
            First(Identifier) => [t Identifier n AttrOpt n EnumVal a Enumerator n EnumMore];
        ],
        NonTerm::EnumVal => alternatives![
            First(Equals) => [t Equals n Cond];
            Else => [];
        ],
        NonTerm::EnumMore => alternatives![
            Both(Comma, RightBrace) => [t Comma];
            First(Comma) => [t Comma n Enums];
            Else => [];
        ],
        NonTerm::Dtor => alternatives![
            First(Star) => [t Star n Quals n Dtor a Pointer];
            First(LeftParen) => [t LeftParen n AttrOpt n Dtor t RightParen n Sufs];
            First(Identifier) => [t Identifier a Name n Sufs];
        ],
        NonTerm::Quals => alternatives![
            First(QualifierOrAtomic) => [t QualifierOrAtomic n Quals];
            First(Attribute) => [n Attr n Quals];
            Else => [];
        ],
        NonTerm::Sufs => alternatives![
            First(LeftBracket) => [t LeftBracket n Bound t RightBracket a Array n Sufs];
            First(LeftParen) => [t LeftParen a Enter n Params t RightParen a Leave n Sufs];
            Else => [];
        ],
        NonTerm::Bound => alternatives![
            First(RightBracket) => [];
            First(StaticOrQualifier) => [t StaticOrQualifier n Bound];
            Both(Star, RightBracket) => [t Star];
            Else => [n Assign];
        ],
        NonTerm::Params => alternatives![
            First(RightParen) => [];
            Both(Void, RightParen) => [t Void];
            Else => [n Param n ParMore];
        ],
        NonTerm::ParMore => alternatives![
            Both(Comma, Ellipsis) => [t Comma t Ellipsis];
            First(Comma) => [t Comma n Param n ParMore];
            Else => [];
        ],
        NonTerm::Param => alternatives![
            Else => [a Decl n Specs0 n PDtor a Param n AttrOpt];
        ],
        NonTerm::PDtor => alternatives![
            First(Star) => [t Star n Quals n PDtor a Pointer];
            First(Identifier) => [t Identifier a Name n Sufs];
            Both(LeftParen, RightParen) => [n Sufs];
            Both(LeftParen, Specifier) => [n Sufs];
            First(LeftParen) => [t LeftParen n AttrOpt n PDtor t RightParen n Sufs];
            Else => [n Sufs];
        ],
        NonTerm::ADtor => alternatives![
            First(Star) => [t Star n Quals n ADtor a Pointer];
            Both(LeftParen, RightParen) => [n Sufs];
            Both(LeftParen, Specifier) => [n Sufs];
            First(LeftParen) => [t LeftParen n ADtor t RightParen n Sufs];
            Else => [n Sufs];
        ],
        NonTerm::TypeName => alternatives![
            Else => [a Decl n Specs0 n ADtor a TypeName];
        ],
        NonTerm::Items => alternatives![
            First(RightBrace) => [];
            Both(Identifier, Colon) => [n Stmt n Items];
            First(Specifier) => [n Decl n Items];
            First(StaticAssert) => [n Decl n Items];
            Both(Extension, Specifier) => [n Decl n Items];
            First(Attribute) => [n Attr n ItemAttr n Items];
            Else => [n Stmt n Items];
        ],
        NonTerm::ItemAttr => alternatives![
            First(Semicolon) => [t Semicolon];
            Else => [n Decl];
        ],
        NonTerm::Stmt => alternatives![
            Both(Identifier, Colon) => [t Identifier a Label t Colon n AttrOpt n Stmt];
            First(Case) => [t Case n Cond t Colon n Stmt];
            First(Default) => [t Default t Colon n Stmt];
            First(LeftBrace) => [t LeftBrace a Enter n Items t RightBrace a Leave];
            First(Semicolon) => [t Semicolon];
            First(If) => [a Enter t If t LeftParen n Expr t RightParen n Sub n Else a Leave];
            First(SwitchOrWhile) => [a Enter t SwitchOrWhile t LeftParen n Expr t RightParen n Sub a Leave];
            First(Do) => [a Enter t Do n Sub t While t LeftParen n Expr t RightParen t Semicolon a Leave];
            First(For) => [a Enter t For t LeftParen n ForInit n ExprOpt t Semicolon n ExprOpt t RightParen n Sub a Leave];
            First(Goto) => [t Goto t Identifier a Goto t Semicolon];
            First(ContinueOrBreak) => [t ContinueOrBreak t Semicolon];
            First(Return) => [t Return n ExprOpt t Semicolon];
            Else => [n Expr t Semicolon];
        ],
        NonTerm::Sub => alternatives![
            Else => [a Enter n Stmt a Leave];
        ],
        NonTerm::Else => alternatives![
            First(Else) => [t Else n Sub];
            Else => [];
        ],
        NonTerm::ForInit => alternatives![
            First(Specifier) => [n Decl];
            Else => [n ExprOpt t Semicolon];
        ],
        NonTerm::ExprOpt => alternatives![
            First(SemicolonOrRightParen) => [];
            Else => [n Expr];
        ],
        NonTerm::Expr => alternatives![
            Else => [n Assign n ExprMore];
        ],
        NonTerm::ExprMore => alternatives![
            First(Comma) => [t Comma n Assign a Op n ExprMore];
            Else => [];
        ],
        NonTerm::Assign => alternatives![
            Else => [n Cond n AssTail];
        ],
        NonTerm::AssTail => alternatives![
            First(AssignmentOperator) => [t AssignmentOperator n Assign a Op];
            Else => [];
        ],
        NonTerm::Cond => alternatives![
            Else => [n Bin1 n CondTail];
        ],
        NonTerm::CondTail => alternatives![
            First(Question) => [t Question n Expr t Colon n Cond a Op];
            Else => [];
        ],
        NonTerm::Bin1 => alternatives![
            Else => [n Bin2 n Tail1];
        ],
        NonTerm::Bin2 => alternatives![
            Else => [n Bin3 n Tail2];
        ],
        NonTerm::Bin3 => alternatives![
            Else => [n Bin4 n Tail3];
        ],
        NonTerm::Bin4 => alternatives![
            Else => [n Bin5 n Tail4];
        ],
        NonTerm::Bin5 => alternatives![
            Else => [n Bin6 n Tail5];
        ],
        NonTerm::Bin6 => alternatives![
            Else => [n Bin7 n Tail6];
        ],
        NonTerm::Bin7 => alternatives![
            Else => [n Bin8 n Tail7];
        ],
        NonTerm::Bin8 => alternatives![
            Else => [n Bin9 n Tail8];
        ],
        NonTerm::Bin9 => alternatives![
            Else => [n Bin10 n Tail9];
        ],
        NonTerm::Bin10 => alternatives![
            Else => [n Cast n Tail10];
        ],
        NonTerm::Tail1 => alternatives![
            First(Level1) => [t Level1 n Bin2 a Op n Tail1];
            Else => [];
        ],
        NonTerm::Tail2 => alternatives![
            First(Level2) => [t Level2 n Bin3 a Op n Tail2];
            Else => [];
        ],
        NonTerm::Tail3 => alternatives![
            First(Level3) => [t Level3 n Bin4 a Op n Tail3];
            Else => [];
        ],
        NonTerm::Tail4 => alternatives![
            First(Level4) => [t Level4 n Bin5 a Op n Tail4];
            Else => [];
        ],
        NonTerm::Tail5 => alternatives![
            First(Level5) => [t Level5 n Bin6 a Op n Tail5];
            Else => [];
        ],
        NonTerm::Tail6 => alternatives![
            First(Level6) => [t Level6 n Bin7 a Op n Tail6];
            Else => [];
        ],
        NonTerm::Tail7 => alternatives![
            First(Level7) => [t Level7 n Bin8 a Op n Tail7];
            Else => [];
        ],
        NonTerm::Tail8 => alternatives![
            First(Level8) => [t Level8 n Bin9 a Op n Tail8];
            Else => [];
        ],
        NonTerm::Tail9 => alternatives![
            First(Level9) => [t Level9 n Bin10 a Op n Tail9];
            Else => [];
        ],
        NonTerm::Tail10 => alternatives![
            First(Level10) => [t Level10 n Cast a Op n Tail10];
            Else => [];
        ],
        NonTerm::Cast => alternatives![
            Both(LeftParen, Specifier) => [t LeftParen n TypeName t RightParen n CastTail];
            Else => [n Unary];
        ],
        NonTerm::CastTail => alternatives![
            First(LeftBrace) => [a InitOf n Braces a InitEnd n PostTail];
            Else => [n Cast a Op];
        ],
        NonTerm::Unary => alternatives![
            First(IncrementOrDecrement) => [t IncrementOrDecrement n Unary a Op];
            First(UnaryOperator) => [t UnaryOperator n Cast a Op];
            First(Extension) => [t Extension n Cast];
            First(Sizeof) => [t Sizeof n SizeTail a Op];
            First(Alignof) => [t Alignof t LeftParen n TypeName t RightParen a Op];
            Else => [n Primary n PostTail];
        ],
        NonTerm::SizeTail => alternatives![
            Both(LeftParen, Specifier) => [t LeftParen n TypeName t RightParen n SizeLit];
            Else => [n Unary];
        ],
        NonTerm::SizeLit => alternatives![
            First(LeftBrace) => [a InitOf n Braces a InitEnd n PostTail];
            Else => [];
        ],
        NonTerm::PostTail => alternatives![
            First(LeftBracket) => [t LeftBracket n Expr t RightBracket a Op n PostTail];
            First(LeftParen) => [t LeftParen n Args t RightParen a Op n PostTail];
            First(DotOrArrow) => [t DotOrArrow t Identifier a Select n PostTail];
            First(IncrementOrDecrement) => [t IncrementOrDecrement a Op n PostTail];
            Else => [];
        ],
        NonTerm::Args => alternatives![
            First(RightParen) => [];
            Else => [n Assign n ArgMore];
        ],
        NonTerm::ArgMore => alternatives![
            First(Comma) => [t Comma n Assign n ArgMore];
            Else => [];
        ],
        NonTerm::Primary => alternatives![
            Both(Identifier, LeftParen) => [t Identifier a Callee];
            First(Identifier) => [t Identifier a Mention];
            First(Constant) => [t Constant a Value];
            First(StringLiteral) => [t StringLiteral a Value];
            First(LeftParen) => [t LeftParen n Expr t RightParen];
            First(Generic) => [t Generic t LeftParen n Assign t Comma n Assoc t RightParen a Op];
            First(VaArg) => [t VaArg t LeftParen n Assign t Comma n TypeName t RightParen a Op];
            First(Offsetof) => [t Offsetof t LeftParen n TypeName t Comma t Identifier a OffMember n OffTail t RightParen a Op];
        ],
        NonTerm::Assoc => alternatives![
            First(Default) => [t Default t Colon n Assign n AssMore];
            Else => [n TypeName t Colon n Assign n AssMore];
        ],
        NonTerm::AssMore => alternatives![
            First(Comma) => [t Comma n Assoc];
            Else => [];
        ],
        NonTerm::OffTail => alternatives![
            First(Dot) => [t Dot t Identifier a OffMember n OffTail];
            First(LeftBracket) => [t LeftBracket n Expr t RightBracket a OffIndex n OffTail];
            Else => [];
        ],
        NonTerm::Init => alternatives![
            First(LeftBrace) => [n Braces];
            Else => [n Assign a Item];
        ],
        NonTerm::Braces => alternatives![
            Else => [t LeftBrace a ListOpen n BraceIn t RightBrace a ListEnd];
        ],
        NonTerm::BraceIn => alternatives![
            First(RightBrace) => [];
            Else => [n Item n BraceMore];
        ],
        NonTerm::BraceMore => alternatives![
            Both(Comma, RightBrace) => [t Comma];
            First(Comma) => [t Comma n Item n BraceMore];
            Else => [];
        ],
        NonTerm::Item => alternatives![
            First(LeftBracketOrDot) => [n Desigs t Equals n Init];
            Else => [n Init];
        ],
        NonTerm::Desigs => alternatives![
            First(LeftBracket) => [t LeftBracket n Cond t RightBracket a Index n DesMore];
            First(Dot) => [t Dot t Identifier a Desig n DesMore];
        ],
        NonTerm::DesMore => alternatives![
            First(LeftBracketOrDot) => [n Desigs];
            Else => [];
        ],
        NonTerm::Mod => alternatives![
            First(Attribute) => [n Attr];
            First(Alignas) => [t Alignas t LeftParen n AlignArg t RightParen];
            Else => [t PlainModifier];
        ],
    }
}
