//! How a table is lent.

/// Lends a [`Table`](crate::Table) under a name: `lend!(rows = table);` is a statement after which
/// `rows` is a list with an item for each row, which is itself the list of the row's cells. It goes
/// into `rows:i = rows` of `values!`, or into `Formattable::iter(rows)`.
///
/// The function that it stands in returns a `Result` whose error is made from an `Error` by `?`.
///
/// ```text
/// lend!(rows = table);      // with the rows `a`, 1 and `b`, 22
/// values!(rows:i = rows).format(alloc, "{rows:i#({:i0({})}{:i1({:>3})})#(;)}")?    // "a  1;b 22"
/// ```
///
/// # Errors
///
/// `NoMemory`: there is no memory for the list. The table stays as it is.
#[macro_export]
macro_rules! lend {
    ($rows:ident = $table:expr) => {
        let table = &$table;
        let views = table.views()?;
        let items = $crate::made::items_of(table.allocator(), &views)?;
        let lent = table.rows(&items)?;
        let $rows = &lent[..];
    };
    ($($other:tt)*) => {
        compile_error!("write `lend!(rows = table);`, and then `values!(rows:i = rows)`")
    };
}
