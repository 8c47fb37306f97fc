// What an image stands for, and what the calls of a group and of a creation leave of it when a crash cuts them short.
//
// The bytes that a root owns are told by layout: which bytes stand at which places. So an image that has the same bytes at those
// places, and the same root, stands for the same, whatever else is different. A group's plan is told by values alone: what it
// writes, and that it writes nothing that the old root owns. The laws are in proofs/, in public modules: until a group's gate is
// being written, each image that a crash leaves stands for the old root, and from its sync on for the new one.
#![tactic(auto)]
