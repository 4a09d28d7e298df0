//! The words of scripts, with their short forms.

ghost use Rattle.std.specs.Prelude.{◌≡◌};
ghost use Rattle.script_tokens.specs.ScriptWords as spec;

use crate::token::Kind;

/// Whether both have the same letters, in any case.
fn same_letters(word: &[u8], quoted: &[u8]) -> bool
    ensures { result ≡ spec.same_letters word.now quoted.now }
{
    word.eq_ignore_ascii_case(quoted)
}

/// Whether it is the word or its short form.
#[tactic(auto, unfolding(crate::specs::ScriptWords::spells))]
fn spells(whole: &[u8], short: &[u8], word: &[u8]) -> bool
    ensures { result ≡ spec.spells whole.now short.now word.now }
{
    same_letters(word, whole) || same_letters(word, short)
}

/// The commands with and without arguments.
#[tactic(auto, unfolding(crate::specs::ScriptWords::plain_command))]
fn plain_command(word: &[u8]) -> Option<Kind>
    ensures { result ≡ spec.plain_command word.now }
{
    if spells(b"set".as_slice(), b"s".as_slice(), word) {
        Some(Kind::Set)
    } else if spells(b"write".as_slice(), b"w".as_slice(), word) {
        Some(Kind::Write)
    } else if spells(b"do".as_slice(), b"d".as_slice(), word) {
        Some(Kind::Do)
    } else if spells(b"quit".as_slice(), b"q".as_slice(), word) {
        Some(Kind::Quit)
    } else if spells(b"kill".as_slice(), b"k".as_slice(), word) {
        Some(Kind::Kill)
    } else if spells(b"lock".as_slice(), b"l".as_slice(), word) {
        Some(Kind::Lock)
    } else if spells(b"halt".as_slice(), b"h".as_slice(), word) {
        Some(Kind::Halt)
    } else {
        None
    }
}

/// The commands of transactions.
#[tactic(auto, unfolding(crate::specs::ScriptWords::tran_command))]
fn tran_command(word: &[u8]) -> Option<Kind>
    ensures { result ≡ spec.tran_command word.now }
{
    if spells(b"tstart".as_slice(), b"ts".as_slice(), word) {
        Some(Kind::TStart)
    } else if spells(b"tcommit".as_slice(), b"tc".as_slice(), word) {
        Some(Kind::TCommit)
    } else if spells(b"trollback".as_slice(), b"tro".as_slice(), word) {
        Some(Kind::TRollback)
    } else {
        None
    }
}

/// The commands with blocks.
#[tactic(auto, unfolding(crate::specs::ScriptWords::block_command))]
fn block_command(word: &[u8]) -> Option<Kind>
    ensures { result ≡ spec.block_command word.now }
{
    if spells(b"if".as_slice(), b"i".as_slice(), word) {
        Some(Kind::If)
    } else if spells(b"for".as_slice(), b"f".as_slice(), word) {
        Some(Kind::For)
    } else if same_letters(word, b"elseif".as_slice()) {
        Some(Kind::ElseIf)
    } else if same_letters(word, b"else".as_slice()) {
        Some(Kind::Else)
    } else if same_letters(word, b"while".as_slice()) {
        Some(Kind::While)
    } else {
        None
    }
}

/// The special variables, behind `$`.
#[tactic(auto, unfolding(crate::specs::ScriptWords::special_word))]
fn special_word(word: &[u8]) -> Option<Kind>
    ensures { result ≡ spec.special_word word.now }
{
    if same_letters(word, b"test".as_slice()) {
        Some(Kind::Test)
    } else if same_letters(word, b"tlevel".as_slice()) {
        Some(Kind::Level)
    } else if same_letters(word, b"this".as_slice()) {
        Some(Kind::This)
    } else {
        None
    }
}

/// The functions that look at a variable or a global, behind `$`.
#[tactic(auto, unfolding(crate::specs::ScriptWords::place_function))]
fn place_function(word: &[u8]) -> Option<Kind>
    ensures { result ≡ spec.place_function word.now }
{
    if spells(b"get".as_slice(), b"g".as_slice(), word) {
        Some(Kind::Get)
    } else if spells(b"data".as_slice(), b"d".as_slice(), word) {
        Some(Kind::Data)
    } else if spells(b"order".as_slice(), b"o".as_slice(), word) {
        Some(Kind::Order)
    } else if spells(b"increment".as_slice(), b"i".as_slice(), word) {
        Some(Kind::Increment)
    } else {
        None
    }
}

/// The functions of texts, behind `$`.
#[tactic(auto, unfolding(crate::specs::ScriptWords::text_function))]
fn text_function(word: &[u8]) -> Option<Kind>
    ensures { result ≡ spec.text_function word.now }
{
    if spells(b"length".as_slice(), b"l".as_slice(), word) {
        Some(Kind::Length)
    } else if spells(b"extract".as_slice(), b"e".as_slice(), word) {
        Some(Kind::Extract)
    } else if spells(b"piece".as_slice(), b"p".as_slice(), word) {
        Some(Kind::Piece)
    } else if spells(b"find".as_slice(), b"f".as_slice(), word) {
        Some(Kind::Find)
    } else if spells(b"ascii".as_slice(), b"a".as_slice(), word) {
        Some(Kind::Ascii)
    } else if spells(b"char".as_slice(), b"c".as_slice(), word) {
        Some(Kind::Char)
    } else {
        None
    }
}

/// The functions of lists, behind `$`.
#[tactic(auto, unfolding(crate::specs::ScriptWords::list_function))]
fn list_function(word: &[u8]) -> Option<Kind>
    ensures { result ≡ spec.list_function word.now }
{
    if spells(b"listbuild".as_slice(), b"lb".as_slice(), word) {
        Some(Kind::ListBuild)
    } else if spells(b"list".as_slice(), b"li".as_slice(), word) {
        Some(Kind::List)
    } else if spells(b"listlength".as_slice(), b"ll".as_slice(), word) {
        Some(Kind::ListLength)
    } else {
        None
    }
}

/// The kind of a word where a command may stand.
#[tactic(auto, unfolding(crate::specs::ScriptWords::command_word))]
pub fn command_word(word: &[u8]) -> Kind
    ensures { result ≡ spec.command_word word.now }
{
    if let Some(kind) = plain_command(word) {
        return kind;
    }
    if let Some(kind) = tran_command(word) {
        return kind;
    }
    if let Some(kind) = block_command(word) {
        return kind;
    }
    Kind::UnknownCommand
}

/// The kind of a word behind `$`.
#[tactic(auto, unfolding(crate::specs::ScriptWords::dollar_word))]
pub fn dollar_word(word: &[u8]) -> Kind
    ensures { result ≡ spec.dollar_word word.now }
{
    if let Some(kind) = special_word(word) {
        return kind;
    }
    if let Some(kind) = place_function(word) {
        return kind;
    }
    if let Some(kind) = text_function(word) {
        return kind;
    }
    if let Some(kind) = list_function(word) {
        return kind;
    }
    Kind::UnknownFunction
}
