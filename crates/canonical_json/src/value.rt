//! A JSON value, which leads back to itself through its two list types.
ghost use Rattle.std.specs.Prelude.{◌≡◌, [], length, IfOk};
ghost use Rattle.canonical_json.specs.Value.{no_values, no_members};
ghost use Rattle.canonical_json.specs.View.{view, list_view, member_view, object_view, items_view, members_view, list_items, object_items};

use ebl_base::{CharList, Copied, NoMemory};
use std::alloc::Global;

/// A value of JSON (RFC 8259) whose numbers are whole, or decimals of at most 15 digits.
#[derive(Drop)]
#[cycle(json)]
pub enum Json {
    /// `null`.
    Null,
    /// `true` or `false`.
    Flag(bool),
    /// A whole number.
    Int(i64),
    /// The number digits / 10^scale. In a lawful value its text is the shortest: the scale is at
    /// least 1 and the last digit isn't 0.
    Decimal { digits: i64, scale: u32 },
    /// A text of Unicode.
    Text(CharList),
    /// Values in their order.
    List(JsonList),
    /// Named values in the order of their names.
    Object(MemberList),
}

/// A named value of an object.
#[derive(Drop)]
#[cycle(json)]
pub struct Member {
    /// The name, which an object has once.
    pub name: CharList,
    /// What stands under the name.
    pub value: Json,
}

/// The values of a list, in their order.
#[derive(Drop)]
#[cycle(json)]
pub struct JsonList {
    items: Vec<Json>,
}

/// The members of an object, in their order.
#[derive(Drop)]
#[cycle(json)]
pub struct MemberList {
    items: Vec<Member>,
}

impl Json {
    /// A value equal to this one. It goes as deep as the value nests.
    #[cycle(copy)]
    pub fn copy(&self, alloc: Global) -> Result<Json, NoMemory>
        ensures { IfOk result (λ c. view c ≡ view self.now) }
    {
        match self {
            Json::Null => Ok(Json::Null),
            Json::Flag(flag) => Ok(Json::Flag(*flag)),
            Json::Int(number) => Ok(Json::Int(*number)),
            Json::Decimal { digits, scale } => Ok(Json::Decimal {
                digits: *digits,
                scale: *scale,
            }),
            Json::Text(text) => Ok(Json::Text(text.copy(alloc)?)),
            Json::List(list) => Ok(Json::List(list.copy(alloc)?)),
            Json::Object(members) => Ok(Json::Object(members.copy(alloc)?)),
        }
    }
}

impl Member {
    /// A value under a name.
    pub fn new(name: CharList, value: Json) -> Member
        ensures { member_view result ≡ (name, view value) }
    {
        Member { name, value }
    }

    /// A member equal to this one. It goes as deep as the value nests.
    #[cycle(copy)]
    pub fn copy(&self, alloc: Global) -> Result<Member, NoMemory>
        ensures { IfOk result (λ c. member_view c ≡ member_view self.now) }
    {
        let name = self.name.copy(alloc)?;
        let value = self.value.copy(alloc)?;
        Ok(Member { name, value })
    }
}

impl JsonList {
    /// The empty list, which allocates nothing until it grows.
    pub fn new(alloc: Global) -> JsonList
        ensures items { list_items result ≡ [] }
        ensures view { list_view result ≡ no_values }
    {
        JsonList {
            items: Vec::new(alloc),
        }
    }

    /// The list of a vector's values.
    pub fn from_vec(items: Vec<Json>) -> JsonList
        ensures items { list_items result ≡ items.items }
        ensures view { list_view result ≡ items_view items.items }
    {
        JsonList { items }
    }

    /// The vector of the list's values.
    pub fn into_vec(self) -> Vec<Json>
        ensures items { result.items ≡ list_items self }
        ensures view { items_view result.items ≡ list_view self }
    {
        self.items
    }

    pub fn as_slice(&self) -> &[Json]
        ensures items { result.now ≡ list_items self.now }
        ensures view { items_view result.now ≡ list_view self.now }
    {
        self.items.as_slice()
    }

    pub fn len(&self) -> usize
        ensures { result ≡ length (list_items self.now) }
    {
        self.items.len()
    }

    /// A list equal to this one. It goes as deep as the list nests.
    #[cycle(copy)]
    pub fn copy(&self, alloc: Global) -> Result<JsonList, NoMemory>
        ensures { IfOk result (λ c. list_view c ≡ list_view self.now) }
    {
        let mut copies = Vec::with_capacity(alloc, self.items.len())?;
        for item in &self.items {
            copies.push(item.copy(alloc)?)?;
        }
        Ok(JsonList { items: copies })
    }
}

impl MemberList {
    /// No members, which take no memory until they grow.
    pub fn new(alloc: Global) -> MemberList
        ensures items { object_items result ≡ [] }
        ensures view { object_view result ≡ no_members }
    {
        MemberList {
            items: Vec::new(alloc),
        }
    }

    /// The members of a vector, in its order.
    pub fn from_vec(items: Vec<Member>) -> MemberList
        ensures items { object_items result ≡ items.items }
        ensures view { object_view result ≡ members_view items.items }
    {
        MemberList { items }
    }

    /// The vector of the members.
    pub fn into_vec(self) -> Vec<Member>
        ensures items { result.items ≡ object_items self }
        ensures view { members_view result.items ≡ object_view self }
    {
        self.items
    }

    pub fn as_slice(&self) -> &[Member]
        ensures items { result.now ≡ object_items self.now }
        ensures view { members_view result.now ≡ object_view self.now }
    {
        self.items.as_slice()
    }

    pub fn len(&self) -> usize
        ensures { result ≡ length (object_items self.now) }
    {
        self.items.len()
    }

    /// Members equal to these. It goes as deep as they nest.
    #[cycle(copy)]
    pub fn copy(&self, alloc: Global) -> Result<MemberList, NoMemory>
        ensures { IfOk result (λ c. object_view c ≡ object_view self.now) }
    {
        let mut copies = Vec::with_capacity(alloc, self.items.len())?;
        for member in &self.items {
            copies.push(member.copy(alloc)?)?;
        }
        Ok(MemberList { items: copies })
    }
}
