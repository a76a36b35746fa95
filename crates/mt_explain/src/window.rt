//! Which columns of a line are shown.
ghost use Rattle.std.specs.Prelude.{◌≡◌, ◌≤◌, ◌<◌, ◌+◌};
ghost use Rattle.mt_explain.specs.Windows.{shown_window, widest_shown};

/// The most columns of a line that are shown.
const WIDEST_SHOWN: usize = 120;

/// The columns that are shown before the one that is meant, where the line is cut on both sides.
const SHOWN_BEFORE: usize = 80;

/// Some columns of a line.
#[derive(Clone, Copy, Debug, PartialEq, Eq)]
pub struct Window {
    /// How many bytes of the line are before them.
    pub before: usize,
    /// How many they are.
    pub count: usize,
}

/// Which columns of a line of so many bytes are shown, where one of them is meant, counted from 1: all, or 120 with the
/// one that is meant, 80 of them before it where the line is cut on both sides. The column after the last byte may be
/// meant.
pub fn shown_columns(length: usize, column: usize) -> Window
    requires { 1 ≤ column }
    ensures is { result ≡ shown_window length column }
    ensures whole { length ≤ widest_shown → result ≡ record { before = 0; count = length } }
    ensures few { result.count ≤ widest_shown }
    ensures within { result.before + result.count ≤ length }
    ensures meant { column ≤ length → (result.before < column) × (column ≤ result.before + result.count) }
    ensures mark { result.before < column }
{
    if length <= WIDEST_SHOWN {
        return Window {
            before: 0,
            count: length,
        };
    }
    let wanted = (column - 1).saturating_sub(SHOWN_BEFORE);
    let most = length - WIDEST_SHOWN;
    Window {
        before: if wanted < most { wanted } else { most },
        count: WIDEST_SHOWN,
    }
}
