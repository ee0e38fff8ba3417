//! Calls by the number of dimensions.

/// A call for as many dimensions as there are: of each number of dimensions there is a copy of the
/// function, whose first argument among its types that number is.
#[macro_export]
macro_rules! in_dimensions {
    ($dims:expr, $call:ident::<$($more:ty),*>($($argument:expr),*)) => {
        match $dims {
            1 => $call::<1 $(, $more)*>($($argument),*),
            2 => $call::<2 $(, $more)*>($($argument),*),
            3 => $call::<3 $(, $more)*>($($argument),*),
            4 => $call::<4 $(, $more)*>($($argument),*),
            5 => $call::<5 $(, $more)*>($($argument),*),
            6 => $call::<6 $(, $more)*>($($argument),*),
            _ => unreachable!(),
        }
    };
}
