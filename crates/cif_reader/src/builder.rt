//! The file, command by command.

ghost use Rattle.std.specs.Prelude.{◌≡◌, ◌<◌, ◌++◌, option_map, List, [], ◌∷◌, None, Some, true, false, IfOk, OnOk, IfSome, is_some, ◌||◌};
ghost use Rattle.std.specs.List.{list_any};
ghost use Rattle.plane_geom.specs.declared.shapes.Shape.{Shape};
ghost use Rattle.plane_geom.specs.Covering.{figure_of};
ghost use Rattle.cif_grammar.specs.Grammar.{Placed, Command as Spelled, finish, start, layer as layer_lem, may_stand, is_inside};
ghost use Rattle.cif_grammar.specs.Seen.{seen};
ghost use Rattle.std.specs.Prelude.{map};
ghost use Rattle.cif_grammar.specs.Grammar.{call, user};
ghost use Rattle.cif_grammar.specs.Seen.{transform_of};
ghost use Rattle.cif_reader.specs.Label.{label_in as label_in_lem};
ghost use Rattle.cif_reader.specs.Measure.{scaled, steps_of, doubled, is_far as is_far_lem, scaled_point as scaled_point_lem};
ghost use Rattle.plane_geom.specs.Bounds.{IsPointWithin};
ghost use Rattle.cif_grammar.specs.Words.{limit};
ghost use Rattle.std.specs.Prelude.{◌^◌};
ghost use Rattle.cif_reader.specs.Faults.{fault_of, large_number, is_twice as is_twice_lem};
ghost use Rattle.cif_reader.specs.Scope.{scale_in, scale_of as scale_of_lem};
ghost use Rattle.cif_reader.specs.Reading.{said, labelled, called, IsSaid};
ghost use Rattle.cif_reader.specs.File.{IsKeptWhat, has_number};
ghost use Rattle.cif_reader.specs.Built.{is_bare, IsFine, IsSaidBy, figure_said, said_drawn, IsScaleSmall, IsBuilt, IsSound, IsClosed, opening_of, items_in, opens, grown_in, grown_outside, may_stand_in};

use crate::calls::place_of;
use crate::file::{CifFile, Item, Symbol, What};
use crate::judge::judge;
use crate::label::label_in;
use crate::measure::{PLAIN, Scale, box_corners, twice};
use crate::path::scaled_path;
use crate::refusal::CifRefusal;
use cif_grammar::{Command, Number, Transformation};
use plane_geom::{Label, Point, Shape, Short};
use std::alloc::{AllocError, Global};

/// The shape of a box, a polygon or a wire.
fn shape_of(alloc: Global, scale: Scale, command: &Command<'_>) -> Result<Option<Shape>, AllocError>
    requires some { 0 < scale.b }
    requires fine { IsFine scale (seen command.now) }
    ensures { IfOk result (λ shape. option_map figure_of shape ≡ figure_said scale (seen command.now)) }
{
    match command {
        Command::Box {
            length,
            width,
            centre,
            direction,
        } => {
            let corners = box_corners(length.value, width.value, *centre, *direction);
            Ok(Some(Shape::Block(scale.scaled_rect(corners))))
        }
        Command::Polygon(path) => Ok(Some(Shape::Polygon(scaled_path(alloc, scale, path)?))),
        Command::Wire { width, path } => {
            let half = scale.scaled(i128::from(width.value));
            let path = scaled_path(alloc, scale, path)?;
            Ok(Some(Shape::Wire { half, path }))
        }
        _ => Ok(None),
    }
}

/// What a box, a polygon or a wire says on the layer: nothing where there is none, or the command is another.
fn drawn_what(
    alloc: Global,
    layer: &Option<Short>,
    scale: Scale,
    command: &Command<'_>,
) -> Result<Option<What>, AllocError>
    requires some { 0 < scale.b }
    requires fine { IsFine scale (seen command.now) }
    ensures said { IfOk result (λ what. IsSaidBy what (said_drawn layer.now scale (seen command.now))) }
    ensures kept { IfOk result (λ what. IfSome what IsKeptWhat) }
{
    let Some(shape) = shape_of(alloc, scale, command)? else {
        return Ok(None);
    };
    match layer {
        Some(layer) => Ok(Some(What::Draw {
            layer: *layer,
            shape,
        })),
        None => Ok(None),
    }
}

/// The point of a label in mask units.
fn scaled_mark(scale: Scale, at: Point) -> Point
    requires some { 0 < scale.b }
    requires not_far { list_any (is_far_lem scale) (doubled at) ≡ false }
    ensures value { result ≡ scaled_point_lem scale at }
    ensures within { IsPointWithin limit result }
{
    Point {
        x: scale.scaled(twice(at.x)),
        y: scale.scaled(twice(at.y)),
    }
}

/// What a label says, if the text is one.
fn mark_what(alloc: Global, scale: Scale, text: &[u8]) -> Result<Option<What>, AllocError>
    requires some { 0 < scale.b }
    requires fine { IsFine scale (user text.now) }
    ensures said { IfOk result (λ what. IsSaidBy what (labelled scale (label_in_lem text.now))) }
    ensures kept { IfOk result (λ what. IfSome what IsKeptWhat) }
{
    let Some(label) = label_in(text) else {
        return Ok(None);
    };
    let at = scaled_mark(scale, label.at);
    Ok(Some(What::Mark {
        name: Label::new(alloc, label.name)?,
        at,
        layer: label.layer,
    }))
}

/// What a call says.
fn call_what(scale: Scale, symbol: Number, transformations: &[Transformation]) -> What
    requires some { 0 < scale.b }
    requires fine { IsFine scale (call symbol (map transform_of transformations.now)) }
    ensures said { IsSaid result (called symbol.value (steps_of (scaled scale) (map transform_of transformations.now))) }
    ensures kept { IsKeptWhat result }
{
    What::Call {
        symbol: symbol.value as u32,
        place: place_of(scale, transformations),
    }
}

/// What a command says, if anything.
fn what_of(
    alloc: Global,
    layer: &Option<Short>,
    scale: Scale,
    command: &Command<'_>,
) -> Result<Option<What>, AllocError>
    requires some { 0 < scale.b }
    requires fine { IsFine scale (seen command.now) }
    ensures said { IfOk result (λ what. IsSaidBy what (said layer.now scale (seen command.now))) }
    ensures kept { IfOk result (λ what. IfSome what IsKeptWhat) }
{
    match command {
        Command::Call {
            symbol,
            transformations,
        } => Ok(Some(call_what(scale, *symbol, transformations))),
        Command::User(text) => mark_what(alloc, scale, text),
        command => drawn_what(alloc, layer, scale, command),
    }
}

/// A definition that is open.
#[derive(Debug, Drop)]
pub(crate) struct Open {
    pub number: u32,
    pub pos: u64,
    pub scale: Scale,
    pub items: Vec<Item>,
}

/// What is known behind the commands that were read.
#[derive(Debug, Drop)]
pub(crate) struct Builder {
    /// The current layer.
    pub layer: Option<Short>,
    /// The layer from before the last start.
    pub outer: Option<Short>,
    /// The definition that is open, if one is.
    pub definition: Option<Open>,
    pub file: CifFile,
}

/// The scale of a start.
#[tactic(auto, unfolding(cif_grammar::specs::Words::limit))]
fn scale_of(scale: Option<(Number, Number)>) -> Scale
    requires { IsScaleSmall scale }
    ensures { result ≡ scale_of_lem scale }
{
    match scale {
        None => PLAIN,
        Some(parts) => Scale {
            a: parts.0.value as u32,
            b: parts.1.value as u32,
        },
    }
}

impl Builder {
    /// The state before the first command.
    pub(crate) fn new(alloc: Global) -> Builder
        ensures { IsBuilt [] result }
    {
        Builder {
            layer: None,
            outer: None,
            definition: None,
            file: CifFile::empty(alloc),
        }
    }

    /// Whether a definition is open.
    pub(crate) fn is_inside(&self) -> bool
        ensures { result ≡ is_some (opening_of self.now.definition) }
    {
        self.definition.is_some()
    }

    /// The scale of the open definition.
    pub(crate) fn scale(&self) -> Scale
        ensures { result ≡ scale_in (opening_of self.now.definition) }
    {
        match &self.definition {
            Some(definition) => definition.scale,
            None => PLAIN,
        }
    }

    /// Whether a symbol of that number is defined or open.
    fn is_known(&self, number: u32) -> bool
        ensures { result ≡ (list_any (has_number number) self.now.file.symbols || opens number (opening_of self.now.definition)) }
    {
        if self.file.is_defined(number) {
            return true;
        }
        match &self.definition {
            Some(definition) => number == definition.number,
            None => false,
        }
    }

    /// Starts a definition.
    fn start(&mut self, alloc: Global, pos: u64, number: u32, scale: Scale)
        ensures layer { self.new.layer ≡ None }
        ensures outer { self.new.outer ≡ self.old.layer }
        ensures opening { opening_of self.new.definition ≡ Some (record { at = pos; symbol = number; scale = scale }) }
        ensures items { items_in self.new.definition ≡ [] }
        ensures file { self.new.file ≡ self.old.file }
    {
        self.outer = self.layer;
        self.layer = None;
        self.definition = Some(Open {
            number,
            pos,
            scale,
            items: Vec::new(alloc),
        });
    }

    /// Finishes the open definition.
    fn finish(&mut self) -> Result<(), AllocError>
        requires { IsSound self.old }
        ensures layer { OnOk result (self.new.layer ≡ self.old.outer) }
        ensures outer { OnOk result (self.new.outer ≡ self.old.outer) }
        ensures opening { OnOk result (opening_of self.new.definition ≡ None) }
        ensures top { OnOk result (self.new.file.top ≡ self.old.file.top) }
        ensures symbols { OnOk result (IsClosed (opening_of self.old.definition) (items_in self.old.definition) self.old.file.symbols self.new.file.symbols) }
    {
        self.layer = self.outer;
        let Some(definition) = self.definition.take() else {
            return Ok(());
        };
        self.file.define(Symbol {
            number: definition.number,
            pos: definition.pos,
            items: definition.items,
        })
    }

    /// Adds an item.
    fn push(&mut self, item: Item) -> Result<(), AllocError>
        requires { IsKeptWhat item.what }
        ensures layer { self.new.layer ≡ self.old.layer }
        ensures outer { self.new.outer ≡ self.old.outer }
        ensures opening { OnOk result (opening_of self.new.definition ≡ opening_of self.old.definition) }
        ensures inside { OnOk result (items_in self.new.definition ≡ grown_in self.old.definition item) }
        ensures symbols { OnOk result (self.new.file.symbols ≡ self.old.file.symbols) }
        ensures top { OnOk result (self.new.file.top ≡ grown_outside self.old.definition self.old.file.top item) }
    {
        match &mut self.definition {
            Some(definition) => {
                definition.items.push(item)?;
                Ok(())
            }
            None => self.file.add_top(item),
        }
    }

    /// Whether the command may stand here: a definition starts outside of one, and finishes inside.
    pub(crate) fn may_stand(&self, command: &Command<'_>) -> bool
        ensures { result ≡ may_stand_in (is_some (opening_of self.now.definition)) (seen command.now) }
    {
        match command {
            Command::Start { .. } => !self.is_inside(),
            Command::Finish => self.is_inside(),
            _ => true,
        }
    }

    /// Adds what a command other than `L`, `DS` and `DF` says.
    fn say(&mut self, alloc: Global, pos: u64, command: &Command<'_>) -> Result<(), AllocError>
        requires sound { IsSound self.old }
        requires fine { IsFine (scale_in (opening_of self.old.definition)) (seen command.now) }
        ensures { (before : List Placed) → IsBuilt before self.old → is_bare (seen command.now) ≡ true → OnOk result (IsBuilt (record { at = pos; what = seen command.now } ∷ before) self.new) }
    {
        let scale = self.scale();
        match what_of(alloc, &self.layer, scale, command)? {
            None => Ok(()),
            Some(what) => self.push(Item { pos, what }),
        }
    }

    /// Adds a command without fault.
    pub(crate) fn add(
        &mut self,
        alloc: Global,
        pos: u64,
        command: Command<'_>,
    ) -> Result<(), AllocError>
        requires sound { IsSound self.old }
        requires fine { IsFine (scale_in (opening_of self.old.definition)) (seen command) }
        ensures { (before : List Placed) → IsBuilt before self.old → may_stand before (seen command.entry) ≡ true → fault_of before (record { at = pos; what = seen command.entry }) ≡ None → OnOk result (IsBuilt (record { at = pos; what = seen command.entry } ∷ before) self.new) }
    {
        match command {
            Command::Layer(layer) => {
                self.layer = Some(layer);
                Ok(())
            }
            Command::Start { symbol, scale } => {
                self.start(alloc, pos, symbol.value as u32, scale_of(scale));
                Ok(())
            }
            Command::Finish => self.finish(),
            command => self.say(alloc, pos, &command),
        }
    }

    /// Whether the command defines a symbol that was defined before.
    fn is_twice(&self, command: &Command<'_>) -> bool
        ensures { (before : List Placed) → IsBuilt before self.now → large_number (seen command.now) ≡ None → result ≡ is_twice_lem before (seen command.now) }
    {
        match command {
            Command::Start { symbol, .. } => {
                symbol.value <= u64::from(u32::MAX) && self.is_known(symbol.value as u32)
            }
            _ => false,
        }
    }

    /// The first fault of a command at a position.
    pub(crate) fn judge(&self, pos: u64, command: &Command<'_>) -> Option<CifRefusal>
        requires { IsSound self.now }
        ensures { (before : List Placed) → IsBuilt before self.now → result ≡ fault_of before (record { at = pos; what = seen command.now }) }
    {
        judge(
            &self.layer,
            self.scale(),
            self.is_twice(command),
            pos,
            command,
        )
    }
}
