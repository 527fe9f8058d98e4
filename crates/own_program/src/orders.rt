//! Orders: lines of a customer and an amount.

use own_handler::{Handler, reason};
use pipe_types::bytes::Bytes;
use pipe_types::message::{Message, Reply};
use std::alloc::{AllocError, Global};

/// Makes of the line `eve 1250` the line `{"customer":"eve","cents":1250}`, whose key is the customer.
///
/// A line that is no text fails with the reason `text`, one without a space with `fields`, one whose customer is not made of
/// letters and digits with `customer`, and one whose amount is not a whole number below 2^32 with `amount`.
#[derive(Drop)]
pub struct Orders {
    alloc: Global,
}

impl Orders {
    pub fn new(alloc: Global) -> Orders {
        Orders { alloc }
    }

    fn order(
        &self,
        mut message: Message,
        customer: String,
        cents: u32,
    ) -> Result<Reply, AllocError> {
        let line = format!(in self.alloc; "{{\"customer\":\"{customer}\",\"cents\":{cents}}}")?;
        message.payload = Bytes::from_vec(line.into_bytes());
        message.key = Bytes::from_vec(customer.into_bytes());
        Ok(Reply::Pass(message))
    }
}

impl Handler for Orders {
    fn message(&mut self, message: Message) -> Result<Reply, AllocError> {
        let Ok(line) = str::from_utf8(message.payload.as_slice()) else {
            return Ok(Reply::Failed(reason(b"text")));
        };
        let Some((customer, cents)) = line.split_once(' ') else {
            return Ok(Reply::Failed(reason(b"fields")));
        };
        if customer.is_empty() || !customer.bytes().all(|b| b.is_ascii_alphanumeric()) {
            return Ok(Reply::Failed(reason(b"customer")));
        }
        let Ok(cents) = cents.parse::<u32>() else {
            return Ok(Reply::Failed(reason(b"amount")));
        };
        let customer = String::from_str(self.alloc, customer)?;
        self.order(message, customer, cents)
    }
}
