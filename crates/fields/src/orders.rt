// Network orders: which field the network combines at which position.
ghost use Rattle.std.specs.Prelude.{◌≡◌, ◌≤◌, true, not, ◌&&◌, [], length, IfSome, is_ok, IfOk};
ghost use Rattle.fields.specs.Faults.{answer, answer_by};
ghost use Rattle.fields.specs.Orders.{field_count, has, EachOnce, order_fault, field_at, first_wrong, is_field};

use crate::faults::Fault;

// How many fields a filter has.
pub const FIELDS: usize = 6;

// The fields in the order in which the nodes combine them, each once.
#[derive(Clone, Copy)]
pub struct NetworkOrder {
    fields: [u8; FIELDS],
    ghost size: { length fields ≡ field_count },
    ghost once: { EachOnce field_count fields },
}

impl NetworkOrder {
    // The order with exactly these fields. An order that names each field once is formed, and no other.
    pub fn form(fields: [u8; FIELDS]) -> Result<NetworkOrder, Fault>
        ensures formed { answer_by (λ o. o.fields) result ≡ answer (order_fault fields) fields }
        ensures names { IfOk result (λ o. EachOnce field_count o.fields) }
        ensures once { EachOnce field_count fields → is_ok result ≡ true }
    {
        if let Some(position) = first_wrong(&fields) {
            return Err(Fault::Order(position));
        }
        Ok(NetworkOrder { fields })
    }

    // The field at a position, 1 to 6.
    pub fn field_at(&self, position: usize) -> Option<u8>
        ensures value { result ≡ field_at self.now.fields position }
        ensures field { IfSome result (λ f. (1 ≤ f) × (f ≤ field_count)) }
    {
        match position {
            1..=FIELDS => Some(self.fields[position - 1]),
            _ => None,
        }
    }
}

// The first position, from 1, whose number is no field or repeats one before it.
fn first_wrong(fields: &[u8]) -> Option<u8>
    requires { length fields.now ≡ field_count }
    ensures { result ≡ first_wrong field_count [] 1 fields.now }
{
    // a loop, as the test of a place looks at the places before it, which a chain's closure would have to index
    for (i, field) in fields.iter().enumerate() {
        if !goes_on(&fields[0..i], *field) {
            return Some(i as u8 + 1);
        }
    }
    None
}

// Whether a number is a field and none of those before it.
fn goes_on(before: &[u8], number: u8) -> bool
    ensures { result ≡ (is_field field_count number && not (has number before.now)) }
{
    1 <= number && number <= FIELDS as u8 && !before.contains(&number)
}
