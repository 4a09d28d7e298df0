ghost use Rattle.std.specs.Prelude.{◌≡◌, ℕ, List, ◌<◌, ◌≤◌, ◌⊎◌, ◌++◌, ◌∷◌, [], Some, None, IfOk, OnOk, length};
ghost use Rattle.std.specs.Option.{option_copied};
ghost use Rattle.first_path.specs.Lines.{Line, New, Fill, Save};
ghost use Rattle.first_path.specs.LineReading.{line_in};
ghost use Rattle.first_path.specs.Meaning.{act_with};
ghost use Rattle.first_path.specs.Script.{IsScript};
ghost use Rattle.first_path.specs.World.{AreKnown};
ghost use Rattle.first_path.specs.declared.act.Act.{Act as AnAct};

use crate::act::Act;
use crate::line::{Setting, fill_line_at, new_line_at, save_line_at};
use crate::names::place_in;
use first_class::{FormError, TextClass};
use obj_kinds::{NoMemory, Text};
use sqlite_items::Items;
use std::alloc::Global;
use std::collections::BTreeMap;

/// The most lines of a script.
pub const MAX_LINES: usize = 10_000;

// The reading of a script: the object that each variable names, how many objects were made, and what
// the lines so far do.
#[derive(Drop)]
pub struct Reading {
    names: BTreeMap<Text, usize>,
    made: usize,
    acts: Items<Act>,
}

impl Reading {
    ghost use Rattle.first_path.specs.Reading.{names_of, IsUnderstood, IsNoAct};

    fn new(alloc: Global) -> Reading
        ensures names { (var : List ℕ) → names_of result var ≡ None }
        ensures made { result.made ≡ 0 }
        ensures acts { result.acts ≡ [] }
    {
        Reading {
            names: BTreeMap::new(alloc),
            made: 0,
            acts: Items::new(alloc),
        }
    }

    fn object(&self, alloc: Global, var: &[u8]) -> Result<usize, FormError>
        ensures ok { IfOk result (λ object. names_of self.now var.now ≡ Some object) }
        ensures refused { result ≡ Err FormError.NotInForm → names_of self.now var.now ≡ None }
    {
        let var = Text::from_slice(alloc, var)?;
        match self.names.get(&var) {
            Some(object) => Ok(*object),
            None => Err(FormError::NotInForm),
        }
    }

    fn make(&mut self, alloc: Global, props: &[Text], var: &[u8]) -> Result<(), NoMemory>
        requires { self.old.made < MAX_LINES }
        ensures { OnOk result (IsUnderstood props.now (New var.now) self.old self.new) }
    {
        let _ = props;
        let var = Text::from_slice(alloc, var)?;
        self.names.insert(var, self.made)?;
        self.acts.push(Act::Make)?;
        self.made += 1;
        Ok(())
    }

    fn fill(&mut self, alloc: Global, props: &[Text], setting: Setting<'_>) -> Result<(), FormError>
        ensures ok { OnOk result (IsUnderstood props.now (Fill setting.entry.var.now setting.entry.prop.now setting.entry.text.now) self.old self.new) }
        ensures refused { result ≡ Err FormError.NotInForm → IsNoAct props.now (Fill setting.entry.var.now setting.entry.prop.now setting.entry.text.now) self.old }
    {
        let object = self.object(alloc, setting.var)?;
        let Some(place) = place_in(props, setting.prop) else {
            return Err(FormError::NotInForm);
        };
        let text = Text::from_slice(alloc, setting.text)?;
        self.acts.push(Act::Fill(object, place, text))?;
        Ok(())
    }

    fn save(&mut self, alloc: Global, props: &[Text], var: &[u8]) -> Result<(), FormError>
        ensures ok { OnOk result (IsUnderstood props.now (Save var.now) self.old self.new) }
        ensures refused { result ≡ Err FormError.NotInForm → IsNoAct props.now (Save var.now) self.old }
    {
        let _ = props;
        let object = self.object(alloc, var)?;
        self.acts.push(Act::Save(object))?;
        Ok(())
    }

    // Reads the line at the front, and answers what follows it.
    fn turn<'a>(
        &mut self,
        alloc: Global,
        class: &TextClass,
        text: &'a [u8],
    ) -> Result<&'a [u8], FormError>
        requires { self.old.made < MAX_LINES }
        ensures ok { IfOk result (λ rest. (line : Line) × (line_in class.now.name.0 text.now ≡ Some (line, rest.now)) × IsUnderstood class.now.props line self.old self.new) }
        ensures refused { result ≡ Err FormError.NotInForm → (line_in class.now.name.0 text.now ≡ None) ⊎ ((line : Line) × (rest : List ℕ) × (line_in class.now.name.0 text.now ≡ Some (line, rest)) × IsNoAct class.now.props line self.old) }
    {
        if let Some(found) = new_line_at(text, class.name.0.as_slice()) {
            self.make(alloc, class.props.as_slice(), found.piece)?;
            return Ok(found.rest);
        }
        if let Some(setting) = fill_line_at(text) {
            self.fill(alloc, class.props.as_slice(), setting)?;
            return Ok(setting.rest);
        }
        if let Some(found) = save_line_at(text) {
            self.save(alloc, class.props.as_slice(), found.piece)?;
            return Ok(found.rest);
        }
        Err(FormError::NotInForm)
    }
}

/// What the script does that the text has the form of: at most [`MAX_LINES`] lines, each ended by a
/// line feed and spelt exactly as one of
///
/// - `Set V=##class(C).%New()`
/// - `Set V.P="TEXT"`, with V set by an earlier line of the first form, P a property of the class,
///   and at most 50 bytes from 32 to 126 without quotes as TEXT
/// - `Write V.%Save(),!`, with V set by an earlier line of the first form
///
/// with the name of the class as C. `NotInForm` comes exactly where the text is of no such script.
pub fn read_script(alloc: Global, class: &TextClass, text: &[u8]) -> Result<Items<Act>, FormError>
    ensures found { IfOk result (λ acts. (lines : List Line) × IsScript class.now.name.0 class.now.props text.now lines acts) }
    ensures few { IfOk result (λ acts. length acts ≤ MAX_LINES) }
    ensures known { IfOk result (λ acts. AreKnown (length class.now.props) [] acts) }
    ensures refused { result ≡ Err FormError.NotInForm → (lines : List Line) (acts : List AnAct) → IsScript class.now.name.0 class.now.props text.now lines acts → ⊥ }
{
    let mut reading = Reading::new(alloc);
    let mut rest = text;
    let mut room = MAX_LINES;
    while !rest.is_empty() {
        if room == 0 {
            return Err(FormError::NotInForm);
        }
        rest = reading.turn(alloc, class, rest)?;
        room -= 1;
    }
    Ok(reading.acts)
}
