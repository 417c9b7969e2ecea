//! Forms of values.
ghost use Rattle.std.specs.Prelude.{◌≡◌, map};
ghost use Rattle.col_documents.specs.Forms.{form_of, named_form};

/// How the values of a field are read.
#[derive(Clone, Copy, Debug, PartialEq, Eq)]
pub enum Form {
    /// Whole numbers, true and false, and texts.
    Plain,
    /// Texts of times with an offset, as RFC 3339 has them, or without one, in UTC; or of dates.
    Date,
    /// Whole numbers of milliseconds since 1970.
    Millis,
    /// Texts of addresses: groups of digits with colons (RFC 4291), or four numbers with dots.
    Address,
    /// Texts of hexadecimal digits.
    Digits,
    /// Numbers with at most so many digits behind the point, as whole numbers of that scale.
    Decimal(u8),
}

/// The form of the field with a path: that of the first with this path, and plain where there is
/// none.
pub fn form_of(forms: &[(String, Form)], path: &str) -> Form
    ensures { result ≡ form_of (map named_form forms.now) path.now }
{
    for (name, form) in forms {
        if name.as_str() == path {
            return *form;
        }
    }
    Form::Plain
}
