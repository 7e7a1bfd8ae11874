//! Words and numbers.

ghost use Rattle.std.specs.Prelude.{◌≡◌};
ghost use Rattle.c_lex.specs.Tables.{seen};
ghost use Rattle.cc_model.specs.Lexical.{words, entry};

use cc_model::Keyword;

/// The words that are no names.
const WORDS: [(&[u8], Keyword); 50] = [
    (b"int", Keyword::Int),
    (b"struct", Keyword::Struct),
    (b"typedef", Keyword::Typedef),
    (b"void", Keyword::Void),
    (b"if", Keyword::If),
    (b"else", Keyword::Else),
    (b"while", Keyword::While),
    (b"do", Keyword::Do),
    (b"for", Keyword::For),
    (b"return", Keyword::Return),
    (b"break", Keyword::Break),
    (b"continue", Keyword::Continue),
    (b"sizeof", Keyword::Sizeof),
    (b"NULL", Keyword::Null),
    (b"malloc", Keyword::Malloc),
    (b"assert", Keyword::Assert),
    (b"assume", Keyword::Assume),
    (b"abort", Keyword::Abort),
    (b"CREST_int", Keyword::CrestInt),
    (b"auto", Keyword::Auto),
    (b"case", Keyword::Case),
    (b"char", Keyword::Char),
    (b"const", Keyword::Const),
    (b"default", Keyword::Default),
    (b"double", Keyword::Double),
    (b"enum", Keyword::Enum),
    (b"extern", Keyword::Extern),
    (b"float", Keyword::Float),
    (b"goto", Keyword::Goto),
    (b"inline", Keyword::Inline),
    (b"long", Keyword::Long),
    (b"register", Keyword::Register),
    (b"restrict", Keyword::Restrict),
    (b"short", Keyword::Short),
    (b"signed", Keyword::Signed),
    (b"static", Keyword::Static),
    (b"switch", Keyword::Switch),
    (b"union", Keyword::Union),
    (b"unsigned", Keyword::Unsigned),
    (b"volatile", Keyword::Volatile),
    (b"_Alignas", Keyword::Alignas),
    (b"_Alignof", Keyword::Alignof),
    (b"_Atomic", Keyword::Atomic),
    (b"_Bool", Keyword::Bool),
    (b"_Complex", Keyword::Complex),
    (b"_Generic", Keyword::Generic),
    (b"_Imaginary", Keyword::Imaginary),
    (b"_Noreturn", Keyword::Noreturn),
    (b"_Static_assert", Keyword::StaticAssert),
    (b"_Thread_local", Keyword::ThreadLocal),
];

/// What a table has at a text.
#[tactic(auto, using(crate::proofs::Tables::find_all), unfolding(cc_model::specs::Lexical::entry))]
fn entry(table: &[(&[u8], Keyword)], text: &[u8]) -> Option<Keyword>
    ensures { result ≡ entry (seen table.now) text.now }
{
    for (word, keyword) in table {
        if text == *word {
            return Some(*keyword);
        }
    }
    None
}

/// The keyword that a text is, if it is one.
pub fn keyword_of(text: &[u8]) -> Option<Keyword>
    ensures { result ≡ entry words text.now }
{
    entry(&WORDS, text)
}
