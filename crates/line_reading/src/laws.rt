//! Laws of the definitions. Each is the contract of a function that does nothing.
ghost use Rattle.std.specs.Prelude.{◌≡◌, [], ◌∷◌, ◌++◌, codes};
ghost use Rattle.std.specs.Str.Lines.{lines};
ghost use Rattle.line_reading.specs.Lines.{carriage_return, line_feed};

/// How std's `lines` treats the ends of lines, by worked inputs: LF ends a line, and one CR before it belongs to the
/// end. After the last LF there is a line only if there is a byte, and a CR at its end stays in it.
pub fn lines_end_at_line_feeds()
    ensures each { lines (codes "one" ++ line_feed ++ codes "two" ++ line_feed)
        ≡ codes "one" ∷ codes "two" ∷ [] }
    ensures with_cr { lines (codes "one" ++ carriage_return ++ line_feed ++ codes "two")
        ≡ codes "one" ∷ codes "two" ∷ [] }
    ensures two_crs { lines (codes "one" ++ carriage_return ++ carriage_return ++ line_feed)
        ≡ (codes "one" ++ carriage_return) ∷ [] }
    ensures cr_alone { lines (codes "one" ++ carriage_return ++ codes "two")
        ≡ (codes "one" ++ carriage_return ++ codes "two") ∷ [] }
    ensures last_cr { lines (codes "one" ++ carriage_return) ≡ (codes "one" ++ carriage_return) ∷ [] }
    ensures no_end { lines (codes "one") ≡ codes "one" ∷ [] }
    ensures empty_lines { lines (line_feed ++ carriage_return ++ line_feed ++ codes "one")
        ≡ [] ∷ [] ∷ codes "one" ∷ [] }
    ensures nothing { lines [] ≡ [] }
{}
