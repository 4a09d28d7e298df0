ghost use Rattle.std.specs.Prelude.{◌≡◌, ◌&&◌, map, codes, IfSome, IfNone, string_bytes};
ghost use Rattle.std.specs.Option.{option_map};
ghost use Rattle.std.specs.Str.{bytes_eq};
ghost use Rattle.host_top.specs.Words.{is_class_file as class_file_test, begins_with_dash as dash_test, AreRunWords, AreNoRunWords};
ghost use Rattle.host_top.specs.WordReading.{first_word, is_end as end_test, names_test, names_in};

/// The names of a class file and of a script.
#[derive(Clone, Copy, Debug)]
pub(crate) struct FileNames<'a> {
    pub class: &'a str,
    pub script: &'a str,
}

fn is_class_file(name: &str) -> bool
    ensures { result ≡ class_file_test name.now }
{
    name.as_bytes().ends_with(b".cls")
}

fn begins_with_dash(name: &str) -> bool
    ensures { result ≡ dash_test name.now }
{
    match name.as_bytes().split_first() {
        None => false,
        Some((first, _)) => *first == b'-',
    }
}

// The first word, and the others.
#[derive(Clone, Copy)]
struct Split<'a> {
    first: &'a str,
    rest: &'a [String],
}

fn split_word(words: &[String]) -> Option<Split<'_>>
    ensures { option_map (λ s. (s.first.now, map string_bytes s.rest.now)) result ≡ first_word (map string_bytes words.now) }
{
    let (first, rest) = words.split_first()?;
    Some(Split {
        first: first.as_str(),
        rest,
    })
}

fn is_run(word: &str) -> bool
    ensures { result ≡ bytes_eq word.now (codes "run") }
{
    word == "run"
}

fn are_names(class: &str, script: &str) -> bool
    ensures { result ≡ names_test class.now script.now }
{
    is_class_file(class)
        && !is_class_file(script)
        && !begins_with_dash(class)
        && !begins_with_dash(script)
}

fn is_end(words: &[String]) -> bool
    ensures { result ≡ end_test (map string_bytes words.now) }
{
    match words.split_first() {
        None => true,
        Some(_) => false,
    }
}

fn are_whole(run: &str, class: &str, script: &str, rest: &[String]) -> bool
    ensures { result ≡ (bytes_eq run.now (codes "run") && end_test (map string_bytes rest.now) && names_test class.now script.now) }
{
    is_run(run) && is_end(rest) && are_names(class, script)
}

#[tactic(auto, unfolding(crate::specs::WordReading::names_in))]
fn names_at(words: &[String]) -> Option<FileNames<'_>>
    ensures { option_map (λ n. (n.class.now, n.script.now)) result ≡ names_in (map string_bytes words.now) }
{
    let Split { first: run, rest } = split_word(words)?;
    let Split { first: class, rest } = split_word(rest)?;
    let Split {
        first: script,
        rest,
    } = split_word(rest)?;
    if are_whole(run, class, script, rest) {
        Some(FileNames { class, script })
    } else {
        None
    }
}

/// The names that the words of a run give: `run`, a name that ends in `.cls`, and one that doesn't,
/// neither with `-` in front. There are none exactly where the words aren't these.
pub(crate) fn file_names(words: &[String]) -> Option<FileNames<'_>>
    ensures found { IfSome result (λ n. AreRunWords (map string_bytes words.now) (record { class = n.class.now; script = n.script.now })) }
    ensures none { IfNone result (AreNoRunWords (map string_bytes words.now)) }
{
    names_at(words)
}
