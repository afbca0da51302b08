//! What the macros call.

pub use crate::lent::{Lent, and_lent, lent_list, lent_value, no_names};
pub use crate::values::{LentList, NamedView, lent_list_items, named_list, named_value, no_list};
pub use crate::values_of::{
    values_0, values_1, values_2, values_3, values_4, values_5, values_6, values_7, values_8,
    values_9,
};
pub use crate::values_of_many::{values_10, values_11, values_12, values_13};
pub use crate::values_of_most::{values_14, values_15, values_16};
pub use crate::views::{
    views_1, views_2, views_3, views_4, views_5, views_6, views_7, views_8, views_9, views_10,
    views_11, views_12, views_13, views_14, views_15, views_16,
};
