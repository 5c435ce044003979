//! The values of the elements, once all lanes are done.
ghost use Rattle.std.specs.Prelude.{◌≡◌, ℕ};
ghost use Rattle.log_format.specs.Fitting.{IsWidth};
ghost use Rattle.history_model.specs.Sound.{AreFitted};
ghost use Rattle.execution_model.specs.Elements.{element_width, layout_of};

use kernel_syntax::{Array, fit};

// The bytes of the element in a word.
fn width_of(arrays: &[Array], word: usize) -> u8
    ensures { result ≡ element_width arrays.now word }
{
    for array in arrays {
        let first = array.first as usize;
        if first <= word && word < first + array.count as usize {
            return array.width;
        }
    }
    1
}

/// Fits each word to its element: what is left in the words are the values of the elements.
pub fn fit_words(arrays: &[Array], words: &mut [u64])
    requires widths { (word : ℕ) → IsWidth (element_width arrays.now word) }
    ensures fitted { AreFitted (layout_of arrays.now) words.old words.new }
{
    for (word, value) in words.iter_mut().enumerate() {
        *value = fit(value.cast_signed(), width_of(arrays, word)).cast_unsigned();
    }
}
