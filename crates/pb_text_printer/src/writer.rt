//! Text that is written token by token, with a space between two tokens but beside brackets and
//! punctuation.

ghost use Rattle.std.specs.Prelude.{◌≡◌, false, true, [], codes, string_bytes};
ghost use Rattle.std.specs.Result.{OnOk};
ghost use Rattle.pb_text_printer.specs.Page.{page, typed, broken};

use std::alloc::{AllocError, Global};

/// The text so far, and whether a space goes before the next token.
#[derive(Drop)]
pub struct Writer {
    text: String,
    gap: bool,
}

impl Writer {
    pub fn new(alloc: Global) -> Writer
        ensures { page result ≡ record { bytes = []; gap = false } }
    {
        Writer {
            text: String::new(alloc),
            gap: false,
        }
    }

    /// The text, which is done.
    pub fn into_text(self) -> String
        ensures { string_bytes result ≡ (page self).bytes }
    {
        let Writer { text, gap: _ } = self;
        text
    }

    /// A token with a space before it, unless it follows an opening bracket or begins a line.
    pub fn word(&mut self, token: &str) -> Result<(), AllocError>
        ensures { OnOk result (page self.new ≡ typed true true token.now (page self.old)) }
    {
        if self.gap {
            self.text.push_str(" ")?;
        }
        self.text.push_str(token)?;
        self.gap = true;
        Ok(())
    }

    /// A token that stands close to what is before it, as a closing bracket or a comma does.
    pub fn close(&mut self, token: &str) -> Result<(), AllocError>
        ensures { OnOk result (page self.new ≡ typed false true token.now (page self.old)) }
    {
        self.text.push_str(token)?;
        self.gap = true;
        Ok(())
    }

    /// A token to which what is behind it stands close, as an opening bracket or a sign.
    pub fn open(&mut self, token: &str) -> Result<(), AllocError>
        ensures { OnOk result (page self.new ≡ typed true false token.now (page self.old)) }
    {
        self.word(token)?;
        self.gap = false;
        Ok(())
    }

    /// The opening bracket of arguments or parameters, close to the name before it.
    pub fn open_list(&mut self) -> Result<(), AllocError>
        ensures { OnOk result (page self.new ≡ typed false false (codes "(") (page self.old)) }
    {
        self.close("(")?;
        self.gap = false;
        Ok(())
    }

    /// The end of a line.
    pub fn end_line(&mut self) -> Result<(), AllocError>
        ensures { OnOk result (page self.new ≡ broken (page self.old)) }
    {
        self.text.push_str("\n")?;
        self.gap = false;
        Ok(())
    }
}
