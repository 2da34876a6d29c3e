//! Lists of at least one item, as the payloads of SUBSCRIBE and SUBACK are (sections 3.8.3 and 3.9.3).

ghost use Rattle.std.specs.Cmp.Lexicographic.{pointwise, lists_per};
ghost use Rattle.std.specs.Prelude.{◌≡◌, ◌<◌, ◌↔◌, length, IsSome, IfSome};

use std::marker::Model;

/// A list of at least one item.
#[derive(Debug, Drop)]
pub struct NonEmpty<T> {
    items: Vec<T>,
}

impl<T> Model for NonEmpty<T> {
    ghost use Rattle.std.specs.Prelude.{List, ◌<◌, length};

    ghost Value = { List T };

    ghost view = { λ list. list.items.items };

    ghost invariant = { λ list. 0 < length list.items.items };
}

impl<T> NonEmpty<T> {
    /// The items as they stand in the `Vec`; `None` where there is none. It takes no memory.
    pub fn from_vec(items: Vec<T>) -> Option<NonEmpty<T>>
    where
        T: Drop,
        ensures value { IfSome result (λ list. list ≡ items.items) }
        ensures found { IsSome result ↔ (0 < length items.items) }
    {
        if items.is_empty() {
            return None;
        }
        Some(NonEmpty { items })
    }

    /// The items, in their order.
    pub fn as_slice(&self) -> &[T]
        ensures value { result.now ≡ self.now }
        ensures not_empty { 0 < length result.now }
    {
        self.items.as_slice()
    }

    /// The `Vec` of the items. It takes no memory.
    pub fn into_vec(self) -> Vec<T>
        ensures { result.items ≡ self }
    {
        self.items
    }
}

impl<T: PartialEq> PartialEq for NonEmpty<T> {
    ghost eq = { pointwise T.eq };

    ghost laws = { lists_per T.laws };

    fn eq(&self, other: &NonEmpty<T>) -> bool {
        self.as_slice() == other.as_slice()
    }
}
