//! Members of an object, one after another.
ghost use Rattle.std.specs.Prelude.{◌≡◌, [], ◌∷◌, ◌++◌, codes, IfOk, OnOk};
ghost use Rattle.canonical_json.specs.Value.{text, object};
ghost use Rattle.canonical_json.specs.View.{member_view, members_of, view};
ghost use Rattle.json_forms.specs.Bytes.{bytes_value};
ghost use Rattle.json_forms.specs.Writing.{capped_value, checksums_value, party_value, platform_value};
ghost use Rattle.answer_lines.specs.Lines.{line_of, members_line, optional};
ghost use Rattle.answer_lines.specs.Row.{row_entries};

use canonical_json::{Json, Member, write};
use ebl_base::{ByteList, Checksum, NoMemory, Party, PlatformCode};
use json_forms::{bytes_member, checksums_json, member, number_json, object_json, text_json};
use std::alloc::Global;

/// The members of an object in the order in which they are put, which is to be that of their names.
#[derive(Drop)]
pub struct Row {
    members: Vec<Member>,
}

impl Row {
    /// No members.
    #[tactic(auto, unfolding(crate::specs::Row::row_entries))]
    pub fn new(alloc: Global) -> Row
        ensures { row_entries result ≡ [] }
    {
        Row {
            members: Vec::new(alloc),
        }
    }

    /// Puts a value under a name.
    pub fn put(&mut self, alloc: Global, name: &str, value: Json) -> Result<(), NoMemory>
        ensures { OnOk result (row_entries self.new ≡ row_entries self.old ++ (name.now, view value) ∷ []) }
    {
        self.put_member(member(alloc, name, value)?)
    }

    #[tactic(auto, unfolding(crate::specs::Row::row_entries))]
    pub(crate) fn put_member(&mut self, member: Member) -> Result<(), NoMemory>
        ensures { OnOk result (row_entries self.new ≡ row_entries self.old ++ member_view member ∷ []) }
    {
        self.members.push(member)?;
        Ok(())
    }

    /// Puts a text under a name.
    pub fn put_text(&mut self, alloc: Global, name: &str, chars: &str) -> Result<(), NoMemory>
        ensures { OnOk result (row_entries self.new ≡ row_entries self.old ++ (name.now, text chars.now) ∷ []) }
    {
        self.put(alloc, name, text_json(alloc, chars)?)
    }

    /// Puts a number under a name; one past 2^53 - 1 is written as that.
    pub fn put_number(&mut self, alloc: Global, name: &str, number: u64) -> Result<(), NoMemory>
        ensures { OnOk result (row_entries self.new ≡ row_entries self.old ++ (name.now, capped_value number) ∷ []) }
    {
        self.put(alloc, name, number_json(number))
    }

    /// Puts a platform's code under a name.
    pub fn put_platform(
        &mut self,
        alloc: Global,
        name: &str,
        platform: PlatformCode,
    ) -> Result<(), NoMemory>
        ensures { OnOk result (row_entries self.new
            ≡ row_entries self.old ++ (name.now, platform_value platform) ∷ []) }
    {
        self.put_text(alloc, name, platform.as_str())
    }

    /// Puts a platform's code under a name, if there is one.
    pub fn put_optional_platform(
        &mut self,
        alloc: Global,
        name: &str,
        platform: Option<PlatformCode>,
    ) -> Result<(), NoMemory>
        ensures { OnOk result (row_entries self.new
            ≡ row_entries self.old ++ optional name.now platform_value platform) }
    {
        match platform {
            Some(platform) => self.put_platform(alloc, name, platform),
            None => Ok(()),
        }
    }

    /// Puts a party under a name, as `ALPH/EXPORT`.
    pub fn put_party(&mut self, alloc: Global, name: &str, party: Party) -> Result<(), NoMemory>
        ensures { OnOk result (row_entries self.new ≡ row_entries self.old ++ (name.now, party_value party) ∷ []) }
    {
        self.put_text(alloc, name, party.to_text().as_str())
    }

    /// Puts bytes under a name, in base64 with padding (RFC 4648, section 4).
    pub fn put_bytes(&mut self, alloc: Global, name: &str, bytes: &[u8]) -> Result<(), NoMemory>
        ensures { OnOk result (row_entries self.new ≡ row_entries self.old ++ (name.now, bytes_value bytes.now) ∷ []) }
    {
        self.put_member(bytes_member(alloc, name, bytes)?)
    }

    /// Puts checksums under a name.
    pub fn put_checksums(
        &mut self,
        alloc: Global,
        name: &str,
        checksums: &[Checksum],
    ) -> Result<(), NoMemory>
        ensures { OnOk result (row_entries self.new
            ≡ row_entries self.old ++ (name.now, checksums_value checksums.now) ∷ []) }
    {
        self.put(alloc, name, checksums_json(alloc, checksums)?)
    }

    /// The object's canonical text (RFC 8785), if the names are in order, and a line feed.
    #[tactic(auto, unfolding(crate::specs::Lines::line_of, crate::specs::Row::row_entries))]
    pub fn into_line(self, alloc: Global) -> Result<ByteList, NoMemory>
        ensures { IfOk result (λ line. line ≡ members_line (row_entries self)) }
    {
        let mut line = write(alloc, &object_json(self.members))?;
        line.push(b'\n')?;
        Ok(line)
    }
}
