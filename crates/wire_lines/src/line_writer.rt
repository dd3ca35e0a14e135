//! A line while it is written, token by token.
ghost use Rattle.std.specs.Prelude.{◌≡◌, ◌++◌, ◌∷◌, [], codes, decimal, map, IfOk, OnOk};
ghost use Rattle.json.specs.Token.{begin_array, begin_object, boolean, end_array, end_object, key};
ghost use Rattle.json.specs.Token.{null, number as number_token, string as string_token};
ghost use Rattle.serde_json.specs.Data.{array, number, object, string, unsigned};
ghost use Rattle.serde_json.specs.Data.{Members, no_members};
ghost use Rattle.serde_json.specs.View.{items_of};
ghost use Rattle.serde_json.specs.Written.{compact_text};
ghost use Rattle.wire_lines.specs.Replies.{refused_with, shown_json, signals_json};
ghost use Rattle.wire_lines.specs.Inner.ReplyTokens.{value_tokens, member_tokens, item_tokens};

use access_core::reply::ShownSignal;
use est_text::identifier::Identifier;
use json::Writer;
use std::alloc::{AllocError, Global};
use std::marker::Model;

/// The room, in bytes, with which a line begins: most lines are shorter.
const USUAL_BYTES: usize = 512;

/// A line that is being written. A contract sees the tokens that it has so far.
#[derive(Drop)]
pub struct LineWriter {
    writer: Writer,
}

impl Model for LineWriter {
    ghost use Rattle.std.specs.Prelude.{◌≡◌, List, []};
    ghost use Rattle.json.specs.Token.{Token, tokens_code};

    ghost Value = { List Token };

    ghost coded = { tokens_code };

    ghost view = { λ line. line.writer.tokens };

    ghost invariant = { λ line. line.writer.before ≡ [] };
}

impl LineWriter {
    /// A line that has only the brace with which its object begins.
    pub fn begin(alloc: Global) -> Result<LineWriter, AllocError>
        ensures { IfOk result (λ line. line ≡ begin_object ∷ []) }
    {
        let mut writer = Writer::new(Vec::with_capacity(alloc, USUAL_BYTES)?);
        writer.begin_object()?;
        Ok(LineWriter { writer })
    }

    /// Begins an object.
    pub fn begin_object(&mut self) -> Result<(), AllocError>
        ensures { OnOk result (self.new ≡ self.old ++ begin_object ∷ []) }
    {
        self.writer.begin_object()
    }

    /// Ends an object.
    pub fn end_object(&mut self) -> Result<(), AllocError>
        ensures { OnOk result (self.new ≡ self.old ++ end_object ∷ []) }
    {
        self.writer.end_object()
    }

    /// Begins a list.
    pub fn begin_array(&mut self) -> Result<(), AllocError>
        ensures { OnOk result (self.new ≡ self.old ++ begin_array ∷ []) }
    {
        self.writer.begin_array()
    }

    /// Ends a list.
    pub fn end_array(&mut self) -> Result<(), AllocError>
        ensures { OnOk result (self.new ≡ self.old ++ end_array ∷ []) }
    {
        self.writer.end_array()
    }

    /// Writes the key of a member, whose value is to follow.
    pub fn key(&mut self, name: &str) -> Result<(), AllocError>
        ensures { OnOk result (self.new ≡ self.old ++ key name.now ∷ []) }
    {
        self.writer.key(name)
    }

    /// Writes a number as a value.
    pub fn number_value(&mut self, value: u64) -> Result<(), AllocError>
        ensures { OnOk result (self.new ≡ self.old ++ number_token (decimal value) ∷ []) }
    {
        self.writer.u64(value)
    }

    /// Writes a text as a value.
    pub fn text_value(&mut self, value: &str) -> Result<(), AllocError>
        ensures { OnOk result (self.new ≡ self.old ++ string_token value.now ∷ []) }
    {
        self.writer.string(value)
    }

    /// Writes whether something is so, as a value.
    pub fn boolean_value(&mut self, value: bool) -> Result<(), AllocError>
        ensures { OnOk result (self.new ≡ self.old ++ boolean value ∷ []) }
    {
        self.writer.boolean(value)
    }

    /// Writes that there is nothing, as a value.
    pub fn null_value(&mut self) -> Result<(), AllocError>
        ensures { OnOk result (self.new ≡ self.old ++ null ∷ []) }
    {
        self.writer.null()
    }

    /// Writes a number under this key.
    pub fn number(&mut self, name: &str, value: u64) -> Result<(), AllocError>
        ensures { OnOk result (self.new
            ≡ self.old ++ value_tokens name.now (number (unsigned value))) }
    {
        self.key(name)?;
        self.number_value(value)
    }

    /// Writes a text under this key.
    pub fn text(&mut self, name: &str, value: &str) -> Result<(), AllocError>
        ensures { OnOk result (self.new ≡ self.old ++ value_tokens name.now (string value.now)) }
    {
        self.key(name)?;
        self.text_value(value)
    }

    /// Writes a refusal's number and its name.
    pub(crate) fn label(&mut self, code: u8, fault: &str) -> Result<(), AllocError>
        ensures { OnOk result (self.new
            ≡ self.old ++ member_tokens (refused_with code fault.now no_members)) }
    {
        self.number("code", u64::from(code))?;
        self.text("fault", fault)
    }

    /// Writes names as items of a list.
    fn each_name(&mut self, names: &[Identifier]) -> Result<(), AllocError>
        ensures { OnOk result (self.new ≡ self.old ++ item_tokens string names.now) }
    {
        for name in names {
            self.text_value(name.as_str())?;
        }
        Ok(())
    }

    /// Writes a list of names under this key.
    pub(crate) fn names(&mut self, name: &str, names: &[Identifier]) -> Result<(), AllocError>
        ensures { OnOk result (self.new ≡ self.old
            ++ value_tokens name.now (array (items_of (map string names.now)))) }
    {
        self.key(name)?;
        self.begin_array()?;
        self.each_name(names)?;
        self.end_array()
    }

    /// Writes a signal's name, and whether it is present, as an item of a list.
    fn signal(&mut self, signal: &ShownSignal) -> Result<(), AllocError>
        ensures { OnOk result (self.new ≡ self.old ++ item_tokens shown_json (signal.now ∷ [])) }
    {
        self.begin_array()?;
        self.text_value(signal.name.as_str())?;
        self.boolean_value(signal.present)?;
        self.end_array()
    }

    /// Writes signals as items of a list.
    fn each_signal(&mut self, signals: &[ShownSignal]) -> Result<(), AllocError>
        ensures { OnOk result (self.new ≡ self.old ++ item_tokens shown_json signals.now) }
    {
        for signal in signals {
            self.signal(signal)?;
        }
        Ok(())
    }

    /// Writes the list of the signals that are shown.
    pub(crate) fn signals(&mut self, signals: &[ShownSignal]) -> Result<(), AllocError>
        ensures { OnOk result (self.new
            ≡ self.old ++ value_tokens (codes "signals") (signals_json signals.now)) }
    {
        self.key("signals")?;
        self.begin_array()?;
        self.each_signal(signals)?;
        self.end_array()
    }

    /// The line, with the brace that ends its object and its LF.
    pub fn end(self) -> Result<Vec<u8>, AllocError>
        ensures { (members : Members) → self ≡ begin_object ∷ member_tokens members
            → IfOk result (λ line. line.items ≡ compact_text (object members) ++ 10 ∷ []) }
    {
        let LineWriter { mut writer } = self;
        writer.end_object()?;
        let mut line = writer.into_inner();
        line.push(b'\n')?;
        Ok(line)
    }
}
