//! What the links, the clocks, the runner, the controller and the disks give of every history of a ring in which cubs may die
//! and return, and add outputs beside what their rules make.
#![tactic(auto)]

ghost use Rattle.proof_links.specs.Statements.{CubsAreToldInOrder, DisksAnswerAsks, HistoriesHaveTwoLives};
ghost use Rattle.proof_links.specs.Statements.{LinksMeetTheLaws, MessagesComeInOrder, ReturnsMeetTheLaws};

/// Every history of a ring meets the laws of the run, of the links and of the controller.
pub fn links_meet_the_laws<S>()
    ensures { LinksMeetTheLaws S }
{}

/// It meets the laws of returns: a cub returns once, at a tick, and its successor is told of that in time.
pub fn returns_meet_the_laws<S>()
    ensures { ReturnsMeetTheLaws S }
{}

/// What cubs take in each life is in form and in order, and its starts are as the orders have it.
pub fn messages_come_in_order<S>()
    ensures { MessagesComeInOrder S }
{}

/// What cubs send one another comes in time and in order, and what they take was sent, in the same life of the receiver.
pub fn cubs_are_told_in_order<S>()
    ensures { CubsAreToldInOrder S }
{}

/// Each ask of a disk is answered in time, and each answer is to an ask.
pub fn disks_answer_asks<S>()
    ensures { DisksAnswerAsks S }
{}

/// The facts of a history are those of two lives of each cub: one before its return, and one from it on.
pub fn histories_have_two_lives<S>()
    ensures { HistoriesHaveTwoLives S }
{}
