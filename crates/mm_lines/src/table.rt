//! A table of words.
ghost use Rattle.std.specs.Prelude.{◌≡◌, map, option_map};
ghost use Rattle.std.specs.Map.{lookup};
ghost use Rattle.std.specs.Str.{bytes_eq};

/// Returns the first row of the table that has this word. It takes as many steps as there are rows.
pub fn row_of<F: Copy>(word: &[u8], rows: &[(&'static str, F)]) -> Option<(&'static str, F)>
    ensures { option_map (λ row. row.1) result ≡ lookup (bytes_eq word.now) (map (λ row. (row.0.now, row.1)) rows.now) }
{
    for &(text, form) in rows {
        if word == text.as_bytes() {
            return Some((text, form));
        }
    }
    None
}
