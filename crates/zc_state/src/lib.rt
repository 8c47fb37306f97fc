// What an image stands for: the state of a pool, and how it is read.
//
// A state is told by values alone: the body of a root, the places of its catalogue, what the catalogue says, and the blocks. What
// it asks of an image is a layout, which bytes stand at which places; so two images that agree at those places, and have the same
// root, stand for the same state, whatever else they hold. `read_state` is the other way: from an image and its root the state, or
// the first damage in the order of the checks. The laws that join the two are in proofs/, in public modules: what is read stands
// there, and what stands there is read.
#![tactic(auto)]
