// Tests of values of any type by their texts, so that no proof looks into the values or drops one.
// Where memory for a text is refused, a test fails.
use std::alloc::Global;
use std::fmt::{Debug, Display};

// Whether this is a value's text by `Debug`.
pub(crate) fn has_debug_text<T: Debug>(alloc: Global, value: &T, text: &str) -> bool {
    match format!(in alloc; "{value:?}") {
        Ok(shown) => shown.as_str() == text,
        Err(_) => false,
    }
}

// Whether this is a value's text.
pub(crate) fn has_text<T: Display>(alloc: Global, value: &T, text: &str) -> bool {
    match format!(in alloc; "{value}") {
        Ok(shown) => shown.as_str() == text,
        Err(_) => false,
    }
}

// Whether a value's text begins with this.
pub(crate) fn text_begins<T: Display>(alloc: Global, value: &T, text: &str) -> bool {
    match format!(in alloc; "{value}") {
        Ok(shown) => shown.as_str().starts_with(text),
        Err(_) => false,
    }
}

// What `look` returns for a value, which is dropped then.
pub(crate) fn inspect<T: Drop, R, F: FnOnce(&T) -> R>(it: T, look: F) -> R
    requires { F.IsAlwaysCallable look }
{
    look(&it)
}
