//! The theory of the judge: orders, serializations, cases, and what holds of every case.
//! The definitions stand in specs/, to be read in this order: Lists, Order, Serial, Case, Promises, Examples.
//! They speak of operations and rule books as the pages Operations and Formed of the crate `execution` and Books of the crate `rulebook` define them.
//! Each function below says one theorem.
#![tactic(auto)]

ghost use Rattle.theory.specs.Promises.{PromisesOfOrders, LawIsEnough, Promises, Sessions, Recording, Openings, OneRun, LeastIsTrue, SupposedIsTrue, SerialTest, OrdersStaySound, ChoicesFit};
ghost use Rattle.theory.specs.Examples.{ExamplesHold};

/// Whatever calls a new case gets, under any rule book with the law, it keeps the five promises.
pub fn every_case_keeps_its_promises()
    ensures { Promises }
{}

/// It keeps them after every call of a sequence.
pub fn every_call_keeps_the_promises()
    ensures { Sessions }
{}

/// The same over any lawful local order.
pub fn every_lawful_order_keeps_its_promises()
    ensures { PromisesOfOrders }
{}

/// The local order under a book with the law is lawful.
pub fn law_is_enough()
    ensures { LawIsEnough }
{}

/// Recording a before b puts all up to a before all from b on, and nothing else.
pub fn recording_spreads()
    ensures { Recording }
{}

/// Every execution has an opening order, and one only.
pub fn openings_exist_and_are_unique()
    ensures { Openings }
{}

/// Every sequence of calls on a new case has its answers and its end, and one only.
pub fn calls_have_one_run()
    ensures { OneRun }
{}

/// A pair of the least order stands so in every serialization.
pub fn least_is_true()
    ensures { LeastIsTrue }
{}

/// What follows from a supposition stands so in every serialization that keeps the recorded order and has the supposed pair.
pub fn supposed_is_true()
    ensures { SupposedIsTrue }
{}

/// The test of serializations passes these and nothing else.
pub fn serial_test_is_exact()
    ensures { SerialTest }
{}

/// Recorded orders are transitive, name only operations, and contain the opening order.
pub fn orders_stay_sound()
    ensures { OrdersStaySound }
{}

/// No more choices stand than pairs were undecided, at most 496, and a split that is not refused has room.
pub fn choices_fit()
    ensures { ChoicesFit }
{}

/// The worked examples come out as written.
pub fn examples_hold()
    ensures { ExamplesHold }
{}
