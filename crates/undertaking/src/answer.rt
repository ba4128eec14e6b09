// What a request answers.
use gate::Order;
use terms::Refusal;

// Granted, with the order that it names, if it names one, or refused.
pub type Answer = Result<Option<Order>, Refusal>;
