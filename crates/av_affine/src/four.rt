//! Rows of four, from what an entry is.

/// The values of an expression for the indices 0 to 3, which the name stands for in it, as an array.
#[macro_export]
macro_rules! four {
    ($index:ident => $value:expr) => {{
        let a = {
            let $index = 0;
            $value
        };
        let b = {
            let $index = 1;
            $value
        };
        let c = {
            let $index = 2;
            $value
        };
        let d = {
            let $index = 3;
            $value
        };
        [a, b, c, d]
    }};
}
