//! How much symbols unfold to, counted with no unfolding.

ghost use Rattle.std.specs.Prelude.{◌≡◌, ℕ, ◌+◌, ◌<◌, ◌≤◌, ◌^◌, true, false, length, take, List, [], ◌∷◌, Some, None, nat_eq, OnOk, IfOk, IfSome, IfNone, MatchOption, is_some};
ghost use Rattle.std.specs.List.{list_any};
ghost use Rattle.indexmap.specs.IndexMap.{get};
ghost use Rattle.plane_geom.specs.Covering.{figure_of};
ghost use Rattle.cif_reader.specs.File.{has_number};
ghost use Rattle.cif_reader.specs.declared.file.Symbol.{Symbol};
ghost use Rattle.cif_flatten.specs.declared.sizes.Size.{Size};
ghost use Rattle.cif_flatten.specs.declared.sizes.ItemSize.TheVariants.{Known, Waiting};
ghost use Rattle.cif_flatten.specs.Unfolding.{items_of, call_count, weight as weight_of_what, figure_weight, capped};
ghost use Rattle.cif_flatten.specs.FileSize.{IsFileSize};
ghost use Rattle.cif_flatten.specs.Faults.{calls, Recurses, IsNested};
ghost use Rattle.cif_flatten.specs.Sizes.{HasSize, called_by, AreSizes, AreSettled, IsWaiting, IsFrame, Explored, HasSizes};

use cif_reader::{CifFile, Item, What};
use indexmap::IndexMap;
use plane_geom::Shape;
use std::alloc::{AllocError, Global};

/// How many calls there are, and how much the shapes and labels weigh. Each number stops at the greatest `u64`.
#[derive(Clone, Copy, Debug, PartialEq, Eq)]
pub struct Size {
    pub calls: u64,
    /// A box or a label weighs 1, a wire or a polygon 1 a point.
    pub weight: u64,
}

/// A symbol that is being measured: how many of its items are, and their size.
#[derive(Clone, Copy, Debug)]
struct Frame {
    number: u32,
    next: usize,
    size: Size,
}

/// The sizes of symbols by their numbers, and none as yet where one is being measured.
type Sizes = IndexMap<u32, Option<Size>>;

impl Size {
    const NOTHING: Size = Size {
        calls: 0,
        weight: 0,
    };

    fn plus(self, other: Size) -> Size
        ensures calls { result.calls ≡ capped (self.calls + other.calls) }
        ensures weight { result.weight ≡ capped (self.weight + other.weight) }
    {
        Size {
            calls: self.calls.saturating_add(other.calls),
            weight: self.weight.saturating_add(other.weight),
        }
    }
}

/// How many calls the file unfolds to from its top, and how much its placed shapes and labels weigh: by the definition
/// `IsFileSize`, where each number stops at the greatest `u64`. It is `None` exactly where a symbol calls itself, perhaps
/// through others, called or not. A symbol that is not defined has no items. The time is linear in the file, and the
/// only error is want of memory.
pub fn unfolded_size(alloc: Global, file: &CifFile) -> Result<Option<Size>, AllocError>
    ensures size { IfOk result (λ found. IfSome found (λ size. IsFileSize file.now size)) }
    ensures nested { IfOk result (λ found. IfSome found (λ size. IsNested file.now.symbols)) }
    ensures recurses { IfOk result (λ found. IfNone found (Recurses file.now.symbols)) }
{
    let Some(sizes) = all_sizes(alloc, file)? else {
        return Ok(None);
    };
    Ok(Some(top_size(file, &sizes)))
}

/// What a shape weighs.
fn shape_weight(shape: &Shape) -> u64
    ensures { result ≡ figure_weight (figure_of shape.now) }
{
    match shape {
        Shape::Block(_) => 1,
        Shape::Polygon(points) => points.len() as u64,
        Shape::Wire { path, .. } => path.len() as u64,
    }
}

/// The size of an item, without what it calls.
fn own_size(item: &Item) -> Size
    ensures calls { result.calls ≡ call_count item.now.what }
    ensures weight { result.weight ≡ weight_of_what item.now.what }
    ensures few_calls { result.calls < 2 ^ 64 }
    ensures low_weight { result.weight < 2 ^ 64 }
{
    match &item.what {
        What::Draw { shape, .. } => Size {
            calls: 0,
            weight: shape_weight(shape),
        },
        What::Call { .. } => Size {
            calls: 1,
            weight: 0,
        },
        What::Mark { .. } => Size {
            calls: 0,
            weight: 1,
        },
    }
}

/// The number that an item calls.
pub(crate) fn called(item: &Item) -> Option<u32>
    ensures { result ≡ called_by item.now.what }
{
    match item.what {
        What::Call { symbol, .. } => Some(symbol),
        _ => None,
    }
}

/// What is known of the size of an item.
#[derive(Drop)]
enum ItemSize {
    Known(Size),
    /// It calls a symbol whose size is not known.
    Waiting(u32),
}

/// The size of a symbol's items, if it is known. A symbol that is not defined has none.
fn known_size(file: &CifFile, sizes: &Sizes, number: u32) -> Option<Size>
    requires { AreSizes file.now.symbols sizes.now }
    ensures known { IfSome result (λ size. HasSize file.now.symbols (items_of file.now.symbols number) size) }
    ensures waiting { IfNone result (IsWaiting file.now.symbols sizes.now number) }
{
    match sizes.get(&number) {
        Some(size) => *size,
        None if file.symbol(number).is_some() => None,
        None => Some(Size::NOTHING),
    }
}

/// The size of an item, if it is known.
fn measured(file: &CifFile, sizes: &Sizes, item: &Item) -> ItemSize
    requires { AreSizes file.now.symbols sizes.now }
    ensures known { (size : Size) → result ≡ Known size → HasSize file.now.symbols (item.now ∷ []) size }
    ensures called { (number : ℕ) → result ≡ Waiting number → called_by item.now.what ≡ Some number }
    ensures waiting { (number : ℕ) → result ≡ Waiting number → IsWaiting file.now.symbols sizes.now number }
{
    let own = own_size(item);
    let Some(number) = called(item) else {
        return ItemSize::Known(own);
    };
    match known_size(file, sizes, number) {
        Some(size) => ItemSize::Known(own.plus(size)),
        None => ItemSize::Waiting(number),
    }
}

/// Measures further items of a symbol: the number of the next symbol that has to be measured first, or `None` where all are.
fn advance(file: &CifFile, sizes: &Sizes, frame: Frame) -> (Frame, Option<u32>)
    requires sizes { AreSizes file.now.symbols sizes.now }
    requires frame { IsFrame file.now.symbols frame }
    ensures same { result.0.number ≡ frame.number }
    ensures frame { IsFrame file.now.symbols result.0 }
    ensures done { IfNone result.1 (HasSize file.now.symbols (items_of file.now.symbols frame.number) result.0.size) }
    ensures called { IfSome result.1 (λ number. calls file.now.symbols frame.number number ≡ true) }
    ensures waiting { IfSome result.1 (λ number. IsWaiting file.now.symbols sizes.now number) }
{
    let Some(symbol) = file.symbol(frame.number) else {
        return (frame, None);
    };
    let mut next = frame.next;
    let mut size = frame.size;
    while next < symbol.items.len() {
        match measured(file, sizes, &symbol.items[next]) {
            ItemSize::Known(more) => {
                size = size.plus(more);
                next += 1;
            }
            ItemSize::Waiting(number) => {
                return (
                    Frame {
                        next,
                        size,
                        ..frame
                    },
                    Some(number),
                );
            }
        }
    }
    (
        Frame {
            next,
            size,
            ..frame
        },
        None,
    )
}

impl Frame {
    /// A symbol of which nothing is measured.
    fn start(number: u32) -> Frame
        ensures number { result.number ≡ number }
        ensures frame { (symbols : List Symbol) → IsFrame symbols result }
    {
        Frame {
            number,
            next: 0,
            size: Size::NOTHING,
        }
    }
}

/// Measures a symbol that was not begun, after all that it calls through others. It is `false` where a symbol calls itself,
/// perhaps through others.
fn explore(
    alloc: Global,
    file: &CifFile,
    sizes: &mut Sizes,
    number: u32,
) -> Result<bool, AllocError>
    requires sizes { AreSizes file.now.symbols sizes.old }
    requires settled { AreSettled sizes.old }
    ensures explored { IfOk result (λ done. done ≡ true → Explored file.now.symbols sizes.old sizes.new number) }
    ensures recurses { IfOk result (λ done. done ≡ false → Recurses file.now.symbols) }
{
    let mut below = Vec::new(alloc);
    sizes.insert(number, None)?;
    let mut top = Frame::start(number);
    loop {
        let (frame, waiting) = advance(file, sizes, top);
        if let Some(called) = waiting {
            if sizes.contains_key(&called) {
                return Ok(false);
            }
            sizes.insert(called, None)?;
            below.push(frame)?;
            top = Frame::start(called);
        } else {
            sizes.insert(frame.number, Some(frame.size))?;
            let Some(caller) = below.pop() else {
                return Ok(true);
            };
            top = caller;
        }
    }
}

/// Measures a symbol, if it was not measured before.
fn measure(
    alloc: Global,
    file: &CifFile,
    sizes: &mut Sizes,
    number: u32,
) -> Result<bool, AllocError>
    requires sizes { AreSizes file.now.symbols sizes.old }
    requires settled { AreSettled sizes.old }
    ensures explored { IfOk result (λ done. done ≡ true → Explored file.now.symbols sizes.old sizes.new number) }
    ensures recurses { IfOk result (λ done. done ≡ false → Recurses file.now.symbols) }
{
    if sizes.contains_key(&number) {
        return Ok(true);
    }
    explore(alloc, file, sizes, number)
}

/// The sizes of all symbols, or `None` where a symbol calls itself, perhaps through others.
fn all_sizes(alloc: Global, file: &CifFile) -> Result<Option<Sizes>, AllocError>
    ensures sizes { IfOk result (λ found. IfSome found (λ sizes. HasSizes file.now.symbols sizes)) }
    ensures recurses { IfOk result (λ found. IfNone found (Recurses file.now.symbols)) }
{
    let mut sizes = IndexMap::new(alloc);
    for place in 0..file.symbol_count() {
        if let Some(symbol) = file.symbol_at(place) {
            if !measure(alloc, file, &mut sizes, symbol.number)? {
                return Ok(None);
            }
        }
    }
    Ok(Some(sizes))
}

/// The size of the items of the top.
fn top_size(file: &CifFile, sizes: &Sizes) -> Size
    requires { HasSizes file.now.symbols sizes.now }
    ensures { HasSize file.now.symbols file.now.top result }
{
    let mut size = Size::NOTHING;
    for item in file.top() {
        if let ItemSize::Known(more) = measured(file, sizes, item) {
            size = size.plus(more);
        }
    }
    size
}
