//! How findings are reported.

/// In which form findings are reported.
#[derive(Clone, Copy)]
pub enum Form<'a> {
    /// Lines for people.
    Plain,
    /// A JSON object for each, with the rule that is broken.
    Json(&'a str),
}

/// The file whose findings are reported, by its name, and the form.
#[derive(Clone, Copy)]
pub struct Report<'a> {
    pub file: &'a str,
    pub form: Form<'a>,
}
