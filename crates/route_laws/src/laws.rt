//! Laws of the effects of calls, in plants of any number of networks and bridges. This project's
//! own.
ghost use Rattle.route_laws.specs.Laws.{RequestsAreTakenOnOnce, WaysHaveOneEffect};
ghost use Rattle.route_laws.specs.Laws.{FinishesHaveResults, SuccessIsOneEffectOnWay};
ghost use Rattle.route_laws.specs.Laws.{AllEffectsAreAtTheirEnd, AllEffectsAreOwn};
ghost use Rattle.route_laws.specs.Laws.{AllEffectsAreRight, OffsHaveNoEffect, WaysOfOneNetwork};

use ladder_solver::segments_keep_calls;
use mstr_block::{calls_are_taken_in_order, finishes_end_one_call, stays_table};

/// Bridges accept each request at most once, and send it on at most once.
pub fn requests_are_taken_on_once()
    ensures { RequestsAreTakenOnOnce }
{}

/// No call takes effect twice, under whatever names it goes.
pub fn ways_have_one_effect()
    ensures { WaysHaveOneEffect }
{
    segments_keep_calls();
    calls_are_taken_in_order();
    finishes_end_one_call();
    stays_table();
}

/// Each call that reports success took effect, once.
pub fn success_is_one_effect_on_way()
    ensures { SuccessIsOneEffectOnWay }
{
    ways_have_one_effect();
}

/// No call of a controller ends with 3000: each reply that it takes is one to the very request
/// that it posted, or an exception that a bridge made of it.
pub fn finishes_have_results()
    ensures { FinishesHaveResults }
{
    segments_keep_calls();
    calls_are_taken_in_order();
    finishes_end_one_call();
    stays_table();
}

/// Each effect of a call, under whatever names it goes, is at the node at which its route ends,
/// and that of a call to the own port at the own node. So is the one effect of a call that reports
/// success. And each effect is that of a call that a controller or a host made.
pub fn effects_are_at_their_end()
    ensures { AllEffectsAreAtTheirEnd }
{
    segments_keep_calls();
    calls_are_taken_in_order();
    finishes_end_one_call();
    stays_table();
    success_is_one_effect_on_way();
}

/// Each call's effects are its own, whether a controller or a host made it or a bridge sent it on.
/// What a node answers, a bridge accepts or sends on, or comes without power is the request that was
/// made. A result that a controller notes is that of this request and of the very reply of the node
/// at the end, and what a host or a bridge notes is this reply; or they are of an exception that a
/// bridge on the way made of it, for a cause that its list tells, or of a call that was given up.
pub fn effects_are_own()
    ensures { AllEffectsAreOwn }
{
    segments_keep_calls();
    calls_are_taken_in_order();
    finishes_end_one_call();
    stays_table();
}

/// A call whose request came to a controller without power took no effect, under whatever names it
/// goes.
pub fn offs_have_no_effect()
    ensures { OffsHaveNoEffect }
{
    segments_keep_calls();
    calls_are_taken_in_order();
    finishes_end_one_call();
    stays_table();
}

/// All of these, for whoever promises them of a joint history: the effects of a plant's calls are
/// right, over any number of networks and bridges. What this says of a plant of one network, where
/// each call has its own name alone, `ways_of_one_network` tells.
pub fn effects_are_right()
    ensures { AllEffectsAreRight }
{
    requests_are_taken_on_once();
    ways_have_one_effect();
    success_is_one_effect_on_way();
    effects_are_at_their_end();
    finishes_have_results();
    effects_are_own();
    offs_have_no_effect();
}

/// In a plant of one network there is no bridge, and each call has its own name alone: what takes
/// effect on its way takes effect under that name, and no bridge refuses it.
pub fn ways_of_one_network()
    ensures { WaysOfOneNetwork }
{}
