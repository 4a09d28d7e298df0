use crate::chain::class;
use crate::collections::Spot;
use crate::failure::Failure;
use crate::player::Player;
use obj_kinds::{Id, Sub};
use oref_table::Oref;
use std::alloc::Global;

/// No object of the cases has a greater number.
const LAST: u64 = 200;

/// The words of a line.
type Words<'a> = Vec<&'a str>;

fn words_of<'a>(alloc: Global, line: &'a str) -> Result<Words<'a>, Failure> {
    let mut words = Vec::new(alloc);
    for word in line.split(' ') {
        words.push(word)?;
    }
    Ok(words)
}

fn word<'a>(words: &Words<'a>, at: usize) -> Result<&'a str, Failure> {
    match words.get(at) {
        Some(word) => Ok(*word),
        None => Err(Failure::Line),
    }
}

fn number(words: &Words<'_>, at: usize) -> Result<u64, Failure> {
    match word(words, at)?.parse::<u64>() {
        Ok(number) => Ok(number),
        Err(_) => Err(Failure::Line),
    }
}

fn small(words: &Words<'_>, at: usize) -> Result<u32, Failure> {
    match u32::try_from(number(words, at)?) {
        Ok(small) => Ok(small),
        Err(_) => Err(Failure::Line),
    }
}

fn oref(words: &Words<'_>, at: usize) -> Result<Oref, Failure> {
    Ok(Oref(number(words, at)?))
}

/// An id of one number, which is from 1 on.
fn id(words: &Words<'_>, at: usize) -> Result<Id, Failure> {
    match Id::from_text(word(words, at)?.as_bytes()) {
        Some(id) => Ok(id),
        None => Err(Failure::Line),
    }
}

/// The slot that the words after the first one name.
fn spot(words: &Words<'_>) -> Result<Spot, Failure> {
    Ok(Spot {
        oref: oref(words, 1)?,
        slot: small(words, 2)?,
    })
}

/// A key of an array.
fn key(alloc: Global, words: &Words<'_>, at: usize) -> Result<Sub, Failure> {
    match Sub::from_text(alloc, word(words, at)?.as_bytes()) {
        Ok(key) => Ok(key),
        Err(_) => Err(Failure::Line),
    }
}

/// `make LETTERS`, or `make LETTERS ID` for an object of an extent.
fn make(alloc: Global, player: &mut Player, words: &Words<'_>) -> Result<bool, Failure> {
    let letters = word(words, 1)?;
    if words.len() < 3 {
        player.make(alloc, class(alloc)?, letters)?;
        return Ok(true);
    }
    player.make_keyed(alloc, class(alloc)?, class(alloc)?, id(words, 2)?, letters)
}

/// `slot OREF SLOT OREF`, or with `-` in the place of the last one.
fn slot(player: &mut Player, words: &Words<'_>) -> Result<bool, Failure> {
    let at = spot(words)?;
    if word(words, 3)? == "-" {
        return player.clear(at);
    }
    player.link(at, oref(words, 3)?)
}

/// `item OREF SLOT PLACE OREF`, or with `-` in the place of the last one.
fn item(player: &mut Player, words: &Words<'_>) -> Result<bool, Failure> {
    let (at, place) = (spot(words)?, number(words, 3)?);
    if word(words, 4)? == "-" {
        return player.take_item(at, place);
    }
    player.put_item(at, place, oref(words, 4)?)
}

/// `insert OREF SLOT PLACE OREF`.
fn insert(player: &mut Player, words: &Words<'_>) -> Result<bool, Failure> {
    player.insert_item(spot(words)?, number(words, 3)?, oref(words, 4)?)
}

/// `pair OREF SLOT KEY OREF`, or with `-` in the place of the last one.
fn pair(alloc: Global, player: &mut Player, words: &Words<'_>) -> Result<bool, Failure> {
    let (at, key) = (spot(words)?, key(alloc, words, 3)?);
    if word(words, 4)? == "-" {
        return player.take_pair(at, key);
    }
    player.put_pair(at, key, oref(words, 4)?)
}

/// `member OREF SLOT OREF`; there is no such call with `-`.
fn member(player: &mut Player, words: &Words<'_>) -> Result<bool, Failure> {
    let at = spot(words)?;
    if word(words, 3)? == "-" {
        return Ok(false);
    }
    player.put_member(at, oref(words, 3)?)
}

/// `leave OREF SLOT OREF`.
fn leave(player: &mut Player, words: &Words<'_>) -> Result<bool, Failure> {
    Ok(player.take_member(spot(words)?, oref(words, 3)?))
}

/// Carries a line out, and answers whether it may be.
fn play(alloc: Global, player: &mut Player, words: &Words<'_>) -> Result<bool, Failure> {
    match word(words, 0)? {
        "make" => make(alloc, player, words),
        "hold" => player.hold(oref(words, 1)?),
        "drop" => Ok(player.let_go(oref(words, 1)?)),
        "slot" => slot(player, words),
        "item" => item(player, words),
        "insert" => insert(player, words),
        "pair" => pair(alloc, player, words),
        "member" => member(player, words),
        "leave" => leave(player, words),
        _ => Err(Failure::Line),
    }
}

/// The live objects, each with its count.
fn print_live(rt: &HostRuntime, player: &Player) -> Result<(), Failure> {
    if player.table().live() == 0 {
        print!(rt; " -")?;
    }
    for number in 1..=LAST {
        if let Some(obj) = player.table().get(Oref(number)) {
            print!(rt; " {number}*{}", obj.count)?;
        }
    }
    Ok(())
}

/// What is told of released objects.
fn print_released(rt: &HostRuntime, player: &Player) -> Result<(), Failure> {
    if player.table().released().is_empty() {
        print!(rt; " -")?;
    }
    for freed in player.table().released().iter() {
        print!(rt; " {}", freed.number)?;
    }
    Ok(())
}

fn print_line(rt: &HostRuntime, player: &mut Player, line: &str, may: bool) -> Result<(), Failure> {
    if !may {
        println!(rt; "{line}: no")?;
        return Ok(());
    }
    print!(rt; "{line}: live")?;
    print_live(rt, player)?;
    print!(rt; "; freed")?;
    print_released(rt, player)?;
    println!(rt)?;
    player.clear_released();
    Ok(())
}

/// Carries out the lines of the cases one by one, and prints each with the memory behind it.
pub fn run_cases(rt: &HostRuntime, text: &str) -> Result<(), Failure> {
    let mut player = Player::new(rt.alloc());
    for line in text.lines() {
        if line.is_empty() || line.starts_with('#') || line == "new" {
            player = Player::new(rt.alloc());
            println!(rt; "{line}")?;
            continue;
        }
        let words = words_of(rt.alloc(), line)?;
        let may = play(rt.alloc(), &mut player, &words)?;
        print_line(rt, &mut player, line, may)?;
    }
    Ok(())
}
