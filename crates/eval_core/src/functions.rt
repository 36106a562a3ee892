//! The functions with rules of their own, each by its name.

pub use elements::{fn_filter, fn_sequence, fn_tocol, fn_torow, fn_trimrange, fn_unique};
pub use positions::{
    fn_choosecols, fn_chooserows, fn_drop, fn_expand, fn_hstack, fn_take, fn_transpose, fn_vstack,
    fn_wrapcols, fn_wraprows,
};
pub use references::{
    fn_areas, fn_choose, fn_column, fn_columns, fn_formulatext, fn_index, fn_offset, fn_row,
    fn_rows,
};
pub use texts::{fn_address, fn_arraytotext, fn_indirect, fn_textsplit};

mod elements;
mod positions;
mod references;
mod texts;
