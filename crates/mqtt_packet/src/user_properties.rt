//! User Properties: pairs of a name and a value, which may repeat and keep their order (section 2.2.2.2).

ghost use Rattle.std.proofs.Common.{rules};
ghost use Rattle.std.specs.Cmp.Lexicographic.{pointwise, lists_per};
ghost use Rattle.std.specs.Cmp.Rules.{comparing};
ghost use Rattle.std.specs.Prelude.{◌≡◌, [], ◌∷◌, ◌++◌, OnOk, OnErr, IfOk};

use crate::text::Text;
use std::alloc::{AllocError, Global};
use std::marker::Model;

/// A User Property (section 1.5.7).
#[derive(Debug, Drop, PartialEq)]
pub struct UserProperty {
    pub name: Text,
    pub value: Text,
}

impl UserProperty {
    /// The same property, which shares its bytes.
    pub fn try_clone(&self) -> Result<UserProperty, AllocError>
        ensures { IfOk result (λ property. property ≡ self.now) }
    {
        let name = self.name.try_clone()?;
        let value = self.value.try_clone()?;
        Ok(UserProperty { name, value })
    }
}

/// The User Properties of a packet, in their order.
#[derive(Debug, Drop)]
pub struct UserProperties {
    properties: Vec<UserProperty>,
}

impl Model for UserProperties {
    ghost use Rattle.std.specs.Prelude.{List};
    ghost use Rattle.mqtt_packet.specs.declared.user_properties.UserProperty.{UserProperty};

    ghost Value = { List UserProperty };

    ghost view = { λ list. list.properties.items };
}

impl UserProperties {
    /// None.
    pub fn new(alloc: Global) -> UserProperties
        ensures { result ≡ [] }
    {
        UserProperties {
            properties: Vec::new(alloc),
        }
    }

    /// One more, after the others. At an `Err` they are as they were.
    pub fn push(&mut self, property: UserProperty) -> Result<(), AllocError>
        ensures pushed { OnOk result (self.new ≡ self.old ++ property ∷ []) }
        ensures unchanged { OnErr result (self.new ≡ self.old) }
    {
        self.properties.push(property)?;
        Ok(())
    }

    /// The same properties, which share their bytes.
    pub fn try_clone(&self, alloc: Global) -> Result<UserProperties, AllocError>
        ensures { IfOk result (λ list. list ≡ self.now) }
    {
        let mut properties = Vec::with_capacity(alloc, self.properties.len())?;
        for property in &self.properties {
            properties.push(property.try_clone()?)?;
        }
        Ok(UserProperties { properties })
    }

    /// The `Vec` of them. It takes no memory.
    pub fn into_vec(self) -> Vec<UserProperty>
        ensures { result.items ≡ self }
    {
        self.properties
    }

    /// All of them, in their order.
    pub fn as_slice(&self) -> &[UserProperty]
        ensures { result.now ≡ self.now }
    {
        self.properties.as_slice()
    }
}

impl PartialEq for UserProperties {
    ghost eq = { pointwise ⟦<UserProperty as PartialEq>⟧.eq };

    ghost laws = { lists_per (Prim.search (comparing, rules)) };

    fn eq(&self, other: &UserProperties) -> bool {
        self.as_slice() == other.as_slice()
    }
}

impl From<Vec<UserProperty>> for UserProperties {
    ghost from_gives = { λ properties result. result ≡ properties.items };

    /// Those of the `Vec`, as they stand there. It takes no memory.
    fn from(properties: Vec<UserProperty>) -> UserProperties {
        UserProperties { properties }
    }
}
