//! The table of keywords.

ghost use Rattle.std.specs.Prelude.{◌≡◌};
ghost use Rattle.class_reader.specs.ClassKeys as spec;

use obj_kinds::Text;
use std::alloc::Global;

/// What the keywords in brackets stand behind.
#[derive(Clone, Copy, Debug, PartialEq, Eq)]
pub enum Section {
    Class,
    Property,
    Relation,
    Index,
    Method,
}

/// What a keyword may have as its value.
#[derive(Clone, Copy, Debug, PartialEq, Eq)]
pub enum Rule {
    /// Any value or none.
    Skipped,
    /// The keyword is left out, with any value or none.
    LeftOut,
    /// A number or a string.
    Literal,
    /// Any value but `right`, or none.
    NotRight,
    /// `index`, or none.
    OnlyIndex,
    /// `cache`, or none.
    OnlyCache,
    /// `code`, or none.
    OnlyCode,
}

/// What the keywords so far say.
#[derive(Debug, Drop)]
pub struct Given {
    pub required: bool,
    pub initial: Text,
    pub cardinality: Option<Text>,
    pub inverse: Option<Text>,
    pub unique: bool,
    /// Whether the last keyword has no value and has to have one.
    pub lacks: bool,
}

/// What the parameters of a property so far say.
#[derive(Debug, Drop)]
pub struct Bounds {
    pub max_len: Option<Text>,
    pub min_val: Option<Text>,
    pub max_val: Option<Text>,
}

#[tactic(auto, unfolding(crate::specs::ClassKeys::property_rule))]
fn property_rule(word: &[u8]) -> Rule
    ensures { result ≡ spec.property_rule word.now }
{
    if word == b"InitialExpression".as_slice() {
        Rule::Literal
    } else if word == b"Calculated".as_slice()
        || word == b"MultiDimensional".as_slice()
        || word == b"Transient".as_slice()
        || word == b"SqlComputed".as_slice()
    {
        Rule::LeftOut
    } else {
        Rule::Skipped
    }
}

#[tactic(auto, unfolding(crate::specs::ClassKeys::index_rule))]
fn index_rule(word: &[u8]) -> Rule
    ensures { result ≡ spec.index_rule word.now }
{
    if word == b"IdKey".as_slice() || word == b"Condition".as_slice() {
        Rule::LeftOut
    } else if word == b"Type".as_slice() {
        Rule::OnlyIndex
    } else {
        Rule::Skipped
    }
}

#[tactic(auto, unfolding(crate::specs::ClassKeys::method_rule))]
fn method_rule(word: &[u8]) -> Rule
    ensures { result ≡ spec.method_rule word.now }
{
    if word == b"Language".as_slice() {
        Rule::OnlyCache
    } else if word == b"CodeMode".as_slice() {
        Rule::OnlyCode
    } else {
        Rule::Skipped
    }
}

/// What this keyword may have as its value.
pub fn rule_of(section: Section, word: &[u8]) -> Rule
    ensures { result ≡ spec.rule_of section word.now }
{
    match section {
        Section::Class => if word == b"Inheritance".as_slice() {
            Rule::NotRight
        } else {
            Rule::Skipped
        },
        Section::Property => property_rule(word),
        Section::Relation => if word == b"OnDelete".as_slice() {
            Rule::LeftOut
        } else {
            Rule::Skipped
        },
        Section::Index => index_rule(word),
        Section::Method => method_rule(word),
    }
}

pub fn is_left_out(rule: Rule) -> bool
    ensures { result ≡ spec.is_left_out rule }
{
    matches!(rule, Rule::LeftOut)
}

pub fn is_only(rule: Rule) -> bool
    ensures { result ≡ spec.is_only rule }
{
    matches!(rule, Rule::OnlyIndex | Rule::OnlyCache | Rule::OnlyCode)
}

pub fn is_literal(rule: Rule) -> bool
    ensures { result ≡ spec.is_literal rule }
{
    matches!(rule, Rule::Literal)
}

/// Whether a value that is a name and begins with this word is left out; `lone` says that the word is the whole name.
pub fn bars_word(rule: Rule, lone: bool, word: &[u8]) -> bool
    ensures { result ≡ spec.bars_word rule lone word.now }
{
    match rule {
        Rule::Literal => true,
        Rule::NotRight => lone && word == b"right".as_slice(),
        Rule::OnlyIndex => word != b"index".as_slice(),
        Rule::OnlyCache => word != b"cache".as_slice(),
        Rule::OnlyCode => word != b"code".as_slice(),
        Rule::Skipped | Rule::LeftOut => false,
    }
}

/// Whether a value in brackets is left out.
pub fn bars_block(rule: Rule) -> bool
    ensures { result ≡ spec.bars_block rule }
{
    is_literal(rule) || is_only(rule)
}

pub fn nothing_given(alloc: Global) -> Given
    ensures { result ≡ spec.nothing_given }
{
    Given {
        required: false,
        initial: Text::new(alloc),
        cardinality: None,
        inverse: None,
        unique: false,
        lacks: false,
    }
}

fn note_property(word: &[u8], value: Text, mut given: Given) -> Given
    ensures { result ≡ spec.note_property word.now value given }
{
    if word == b"Required".as_slice() {
        given.required = true;
    } else if word == b"InitialExpression".as_slice() {
        given.initial = value;
    }
    given
}

fn note_relation(word: &[u8], value: Text, mut given: Given) -> Given
    ensures { result ≡ spec.note_relation word.now value given }
{
    if word == b"Cardinality".as_slice() {
        given.cardinality = Some(value);
    } else if word == b"Inverse".as_slice() {
        given.inverse = Some(value);
    }
    given
}

fn note_index(word: &[u8], mut given: Given) -> Given
    ensures { result ≡ spec.note_index word.now given }
{
    if word == b"Unique".as_slice() || word == b"PrimaryKey".as_slice() {
        given.unique = true;
    }
    given
}

/// What is said with this keyword and its value; keywords that aren't read say nothing.
#[tactic(auto, unfolding(crate::specs::ClassKeys::note))]
fn note(section: Section, word: &[u8], value: Text, given: Given) -> Given
    ensures { result ≡ spec.note section word.now value given }
{
    match section {
        Section::Property => note_property(word, value, given),
        Section::Relation => note_relation(word, value, given),
        Section::Index => note_index(word, given),
        Section::Class | Section::Method => given,
    }
}

/// What is said with this keyword. Behind `Not` it says nothing.
#[tactic(auto, unfolding(crate::specs::ClassKeys::noted))]
pub fn noted(
    alloc: Global,
    section: Section,
    negated: bool,
    word: &[u8],
    value: Option<Text>,
    given: Given,
) -> Given
    ensures { result ≡ spec.noted section negated word.now value given }
{
    let lacks = is_literal(rule_of(section, word)) && value.is_none();
    let mut said = if negated {
        given
    } else {
        match value {
            Some(value) => note(section, word, value, given),
            None => note(section, word, Text::new(alloc), given),
        }
    };
    said.lacks = lacks;
    said
}

/// Whether a parameter of a property is left out.
#[tactic(auto, unfolding(crate::specs::ClassKeys::is_left_out_bound))]
pub fn is_left_out_bound(word: &[u8]) -> bool
    ensures { result ≡ spec.is_left_out_bound word.now }
{
    word == b"MINLEN".as_slice()
        || word == b"PATTERN".as_slice()
        || word == b"TRUNCATE".as_slice()
        || word == b"VALUELIST".as_slice()
        || word == b"COLLATION".as_slice()
}

pub fn no_bounds() -> Bounds
    ensures { result ≡ spec.no_bounds }
{
    Bounds {
        max_len: None,
        min_val: None,
        max_val: None,
    }
}

/// What is said with this parameter; parameters that aren't read say nothing.
#[tactic(auto, unfolding(crate::specs::ClassKeys::bound))]
pub fn bound(word: &[u8], value: Text, mut bounds: Bounds) -> Bounds
    ensures { result ≡ spec.bound word.now value bounds }
{
    if word == b"MAXLEN".as_slice() {
        bounds.max_len = Some(value);
    } else if word == b"MINVAL".as_slice() {
        bounds.min_val = Some(value);
    } else if word == b"MAXVAL".as_slice() {
        bounds.max_val = Some(value);
    }
    bounds
}
