//! Where a list has come to.
ghost use Rattle.std.specs.Prelude.{◌≡◌, List};
ghost use Rattle.mt_rules.specs.Classes.{kind_class};
ghost use Rattle.mt_box.specs.Rows.{PieceValue};
ghost use Rattle.mt_convert.specs.Current.{opening as opening_of};
ghost use Rattle.mt_convert.specs.SecondPass.{current_after_half, style_after_half};
ghost use Rattle.mt_convert.specs.inner.Placed.{placed_value};

use crate::placed::class_to_right;
use mt_pieces::PlacedItem;
use mt_rules::{Class, Kind, Style};

/// Where a list has come to.
#[derive(Clone, Copy)]
pub struct Current {
    /// The style in which the list begins.
    pub initial: Style,
    /// The style there: that of the last style item before, after the last middle, or else the one in
    /// which the list begins.
    pub style: Style,
    /// The class that the last atom before counts as towards its right, if there is one; boundaries
    /// and middles are atoms here.
    pub last: Option<Class>,
}

impl Current {
    // Where a list in this style begins.
    pub(crate) fn opening(style: Style) -> Current
        ensures { result ≡ opening_of style }
    {
        Current {
            initial: style,
            style,
            last: None,
        }
    }

    // Where the list has come to after an item that is set.
    pub(crate) fn after_half(self, half: PlacedItem) -> Current
        ensures { (row : List PieceValue) → result ≡ current_after_half self (placed_value half row) }
    {
        Current {
            initial: self.initial,
            style: style_after_half(self.initial, self.style, half),
            last: class_to_right(half).or(self.last),
        }
    }
}

fn style_after_half(initial: Style, style: Style, half: PlacedItem) -> Style
    ensures { (row : List PieceValue) → result ≡ style_after_half initial style (placed_value half row) }
{
    match half {
        PlacedItem::Style(next) => next,
        PlacedItem::Middle(_) => initial,
        _ => style,
    }
}

// The class of its own of an atom of this kind.
pub(crate) fn kind_class(kind: Kind) -> Class
    ensures { result ≡ kind_class kind }
{
    match kind {
        Kind::Plain(class) => class,
        _ => Class::Ord,
    }
}
